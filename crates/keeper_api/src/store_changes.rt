//! One change of a store, and what each answer of its commit means.

ghost use Rattle.std.specs.Prelude.{◌≡◌};
ghost use Rattle.octets.specs.Causes.{HasCause};
ghost use Rattle.keeper_api.specs.Faults.{keeper_failed};
ghost use Rattle.keeper_api.specs.Keepers.{Leaves, TellsOn};
ghost use Rattle.keeper_api.specs.Committing.{ChangeEnds};

use crate::{Change, Keeper, KeeperFault};
use std::alloc::Global;

/// Commits a change once.
pub fn commit_change<R: Keeper>(
    alloc: Global,
    change: &Change,
    keeper: &mut R,
) -> Result<(), KeeperFault>
    ensures ends { ChangeEnds R.Keeper keeper.old keeper.new change.now result }
    ensures on { TellsOn (R.content keeper.old) (R.content keeper.new) (R.tells_left keeper.old)
        (R.tells_left keeper.new) (R.is_clean keeper.old) (R.is_clean keeper.new) (R.faults keeper.old)
        (R.faults keeper.new) }
    ensures left { Leaves change.now result (R.content keeper.old) (R.tells_left keeper.old) (R.tells_left keeper.new)
        (R.left keeper.old) (R.left keeper.new) }
    ensures cause { HasCause keeper_failed (R.faults keeper.old) (R.faults keeper.new) result }
    ensures reads { R.reads keeper.new ≡ R.reads keeper.old }
{
    match keeper.commit(alloc, change) {
        Ok(()) => Ok(()),
        Err(KeeperFault::Failed) => Err(KeeperFault::Failed),
        Err(KeeperFault::Memory) => Err(KeeperFault::Memory),
    }
}
