//! The one change by which a store takes an offer that was compared.

ghost use Rattle.std.specs.Prelude.{◌≡◌, ◌≤◌, IfOk, Some};
ghost use Rattle.octets.specs.Causes.{HasCause};
ghost use Rattle.git_object.specs.Objects.{Pair};
ghost use Rattle.git_object.specs.Repository.{HasObject, Repository, empty_repository};
ghost use Rattle.keeper_api.specs.Changes.{changed};
ghost use Rattle.keeper_api.specs.Faults.{keeper_failed};
ghost use Rattle.mirror.specs.Mirrors.{Forks, Takes};
ghost use Rattle.mirror.specs.Settling.{CanSettle, ChangeSettles, Settles};

use crate::Offer;
use crate::changes::{fork_change, take_change};
use git_object::{Memory, Object, ObjectId};
use keeper_api::{Change, Keeper, KeeperFault, MemKeeper, commit_change, load_object};
use std::alloc::Global;

// Takes what another change would make of an empty store, which lies in `held`.
fn take<R: Keeper>(
    alloc: Global,
    kept: &mut R,
    held: &mut MemKeeper,
    offered: Change,
) -> Result<(), KeeperFault>
    requires { held.old.held ≡ changed offered empty_repository }
    ensures settles { ChangeSettles R.Keeper kept.old kept.new (Takes (changed offered empty_repository)) result }
    ensures cause { HasCause keeper_failed (R.faults kept.old) (R.faults kept.new) result }
{
    let change = match take_change(alloc, kept, held, offered) {
        Ok(change) => change,
        Err(fault) => return Err(fault),
    };
    commit_change(alloc, &change, kept)
}

// The offered entry of an id.
fn entry_at(alloc: Global, held: &mut MemKeeper, id: &ObjectId) -> Result<Object, Memory>
    requires { (entry : Pair) × HasObject held.old.held id.now entry }
    ensures { IfOk result (HasObject held.old.held id.now) }
{
    match load_object(alloc, held, id) {
        Ok(Some(entry)) => Ok(entry),
        Ok(None) => unreachable!(),
        Err(_) => Err(Memory),
    }
}

// Keeps an entry of another past, and a reference to it.
fn keep_fork<R: Keeper>(
    alloc: Global,
    kept: &mut R,
    number: u64,
    id: &ObjectId,
    entry: Object,
) -> Result<(), KeeperFault>
    requires { number ≤ 1000000 }
    ensures settles { (offered : Repository) → HasObject offered id.now entry
        → ChangeSettles R.Keeper kept.old kept.new (Forks offered number id.now) result }
    ensures cause { HasCause keeper_failed (R.faults kept.old) (R.faults kept.new) result }
{
    let change = fork_change(alloc, number, id, entry)?;
    commit_change(alloc, &change, kept)
}

/// Makes of the store what an offer that was compared makes of it, by one commit or none. What is offered is what the
/// change would make of an empty store, and lies in `held`.
pub fn settle<R: Keeper>(
    alloc: Global,
    kept: &mut R,
    offered: Change,
    held: &mut MemKeeper,
    offer: &Offer,
) -> Result<(), KeeperFault>
    requires held { held.old.held ≡ changed offered empty_repository }
    requires can { CanSettle held.old.held offer.now }
    ensures settles { Settles R.Keeper kept.old kept.new (changed offered empty_repository) offer.now result }
    ensures cause { HasCause keeper_failed (R.faults kept.old) (R.faults kept.new) result }
{
    match offer {
        Offer::Taken { from: _, to: _ } => take(alloc, kept, held, offered),
        Offer::Same { count: _ } => Ok(()),
        Offer::Behind {
            kept: _,
            offered: _,
        } => Ok(()),
        Offer::Forked {
            number,
            kept: _,
            offered: id,
        } => {
            let Ok(entry) = entry_at(alloc, held, id) else {
                return Err(KeeperFault::Memory);
            };
            keep_fork(alloc, kept, *number, id, entry)
        }
    }
}
