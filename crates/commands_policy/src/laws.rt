//! Laws over the definitions of this crate. No call needs these functions: their contracts are the laws.

ghost use Rattle.commands_policy.specs.Outcomes.{OneOfPolicy, TellsOfPolicy};
ghost use Rattle.commands_policy.specs.Runs.{TellsOfWorld};

use edge_io::Disk;
use keeper_api::Keeper;
use rsl_chain::laws::logs;
use worlds::{Kinds, Objects, Of};

/// Each command comes to one outcome at most for the same key file and repository.
pub fn one_of_policy()
    ensures { OneOfPolicy }
{
    logs();
}

/// Where store and disk tell their content, what ended is what the command comes to, unless it stopped for a fault or
/// for want of memory.
pub fn tells_of_policy<R: Keeper, D: Disk>()
    ensures { TellsOfPolicy R.Keeper D.Disk }
{}

/// Where the objects that a command touches tell their content, its ending is the one for that content, unless it
/// stopped for a fault or for want of memory.
pub fn policy_over_world<W: Objects>()
    ensures { TellsOfWorld ⟦<Of<W> as Objects>⟧.ways }
{
    tells_of_policy::<W::Keeper, W::Disk>();
}
