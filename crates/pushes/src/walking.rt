//! Walks through the objects of a store.

ghost use Rattle.std.specs.Prelude.{◌≡◌, ◌++◌, ◌∷◌, [], ℕ, List, reverse, Some, OnOk};
ghost use Rattle.octets.specs.Causes.{HasCause};
ghost use Rattle.git_object.specs.Repository.{Repository};
ghost use Rattle.keeper_api.specs.Faults.{keeper_failed};
ghost use Rattle.keeper_api.specs.Undisturbed.{Undisturbed};
ghost use Rattle.pushes.specs.Reaching.{Ends, names_kept};

use crate::{is_done, put_names};
use git_object::ObjectId;
use keeper_api::{Keeper, KeeperFault, load_object};
use placed_items::Placed;
use std::alloc::Global;

// Puts what the object kept under an id names in front of what is ahead, whose front is at its end.
fn follow<R: Keeper>(
    alloc: Global,
    keeper: &mut R,
    id: &ObjectId,
    ahead: &mut Vec<ObjectId>,
) -> Result<(), KeeperFault>
    ensures goes { OnOk result ((r : Repository) → R.content keeper.new ≡ Some r
        → reverse ahead.new.items ≡ names_kept r id.now ++ reverse ahead.old.items) }
    ensures same { Undisturbed R.Keeper keeper.old keeper.new }
    ensures cause { HasCause keeper_failed (R.faults keeper.old) (R.faults keeper.new) result }
{
    match load_object(alloc, keeper, id)? {
        Some(object) => {
            put_names(alloc, &object, ahead)?;
            Ok(())
        }
        None => Ok(()),
    }
}

/// Visits what is reached from an id and was not visited before, past what is missing. Each visit takes one look-up and
/// one reading of an object, and makes what was visited longer, which stays below 2^63: so the walk ends.
pub(crate) fn walk<R: Keeper>(
    alloc: Global,
    keeper: &mut R,
    from: &ObjectId,
    seen: &mut Placed<ObjectId>,
) -> Result<(), KeeperFault>
    ensures ends { OnOk result ((r : Repository) → R.content keeper.new ≡ Some r
        → Ends r seen.old (from.now ∷ []) seen.new) }
    ensures grows { OnOk result ((more : List (List ℕ)) × (seen.new ≡ seen.old ++ more)) }
    ensures same { Undisturbed R.Keeper keeper.old keeper.new }
    ensures cause { HasCause keeper_failed (R.faults keeper.old) (R.faults keeper.new) result }
{
    let mut ahead = Vec::new(alloc);
    ahead.push(*from)?;
    'ids: while let Some(id) = ahead.pop() {
        if is_done(seen, &id) {
            continue;
        }
        // It is less than 2^63.
        let _count = seen.len();
        seen.push(id)?;
        follow(alloc, keeper, &id, &mut ahead)?;
    }
    Ok(())
}
