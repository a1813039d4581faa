//! Laws over what `snapshot` comes to. No call needs these functions: their contracts are the laws.

ghost use Rattle.commands_snapshot.specs.OutcomeLaws.{OneOfTrees, TellsOfTrees};
ghost use Rattle.commands_snapshot.specs.Runs.{TellsOfWorld};

use keeper_api::Keeper;
use worlds::{Kinds, Objects, Of};

/// For the same bytes and repository `snapshot` ends in one way at most, faults and want of memory aside, where objects
/// are made of the bytes or refused, and not both.
pub fn one_of_trees()
    ensures { OneOfTrees }
{}

/// Where source and store tell, what ended is what the bytes and the repository come to, or it stopped.
pub fn tells_of_trees<R: Keeper>()
    ensures { TellsOfTrees R.Keeper }
{}

/// Where the objects that the command touches tell their content, its ending is the one for that content, unless it
/// stopped for a fault or for want of memory.
pub fn snapshot_over_world<W: Objects>()
    ensures { TellsOfWorld ⟦<Of<W> as Objects>⟧.ways }
{
    tells_of_trees::<W::Keeper>();
}
