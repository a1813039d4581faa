//! Laws over the definitions of this crate. No call needs these functions: their contracts are the laws.

ghost use Rattle.commands_approve.specs.Outcomes.{OneOfApprovals, TellsOfApprovals};
ghost use Rattle.commands_approve.specs.Runs.{TellsOfWorld};

use edge_io::Disk;
use keeper_api::Keeper;
use rsl_chain::laws::logs;
use worlds::{Kinds, Objects, Of};

/// `approve` comes to one outcome at most for the same key file and repository.
pub fn one_of_approvals()
    ensures { OneOfApprovals }
{
    logs();
}

/// Where store and disk tell their content, what ended is what `approve` comes to, unless it stopped for a fault or for
/// want of memory.
pub fn tells_of_approvals<R: Keeper, D: Disk>()
    ensures { TellsOfApprovals R.Keeper D.Disk }
{}

/// Where the objects that the command touches tell their content, its ending is the one for that content, unless it
/// stopped for a fault or for want of memory.
pub fn approve_over_world<W: Objects>()
    ensures { TellsOfWorld ⟦<Of<W> as Objects>⟧.ways }
{
    tells_of_approvals::<W::Keeper, W::Disk>();
}
