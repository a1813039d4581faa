//! Filling an empty store with a demonstration.

ghost use Rattle.std.specs.Prelude.{◌≡◌, ◌≤◌};
ghost use Rattle.octets.specs.Causes.{HasCause};
ghost use Rattle.demo.specs.Filling.{FillEnds, fill_failed};

use crate::make_change;
use keeper_api::{Keeper, KeeperFault, commit_change, is_empty};
use std::alloc::Global;

/// Why a store was not filled.
#[derive(Clone, Copy, Debug, PartialEq, Eq)]
pub enum FillFault {
    /// The store failed before it was known to hold nothing. Nothing was changed.
    KeeperFailed,
    /// The store holds an object or a reference. Nothing was changed.
    NotEmpty,
    /// Nothing was changed.
    Memory,
    /// The commit failed. The store holds nothing, or the demonstration.
    CommitFailed,
}

/// Fills a store that holds nothing with a demonstration of so many changes, by one commit. `NotEmpty` comes exactly
/// where it holds something, before anything is made. It reads no object.
pub fn fill<R: Keeper>(alloc: Global, count: u32, keeper: &mut R) -> Result<(), FillFault>
    requires { count ≤ 500 }
    ensures ends { FillEnds count R.Keeper keeper.old keeper.new result }
    ensures cause { HasCause fill_failed (R.faults keeper.old) (R.faults keeper.new) result }
    ensures reads { R.reads keeper.new ≡ R.reads keeper.old }
{
    match is_empty(alloc, keeper) {
        Ok(true) => {}
        Ok(false) => return Err(FillFault::NotEmpty),
        Err(KeeperFault::Failed) => return Err(FillFault::KeeperFailed),
        Err(KeeperFault::Memory) => return Err(FillFault::Memory),
    }
    let Ok(change) = make_change(alloc, count) else {
        return Err(FillFault::Memory);
    };
    match commit_change(alloc, &change, keeper) {
        Ok(()) => Ok(()),
        Err(KeeperFault::Failed) => Err(FillFault::CommitFailed),
        Err(KeeperFault::Memory) => Err(FillFault::Memory),
    }
}
