//! The first id that a push needs and that is nowhere.

ghost use Rattle.std.specs.Prelude.{◌≡◌, ◌++◌, reverse, false, Some, None, IfOk, IfSome, IfNone, IsTrue, OnOk};
ghost use Rattle.std.specs.Str.{bytes_eq};
ghost use Rattle.octets.specs.Causes.{HasCause};
ghost use Rattle.git_object.specs.Ids.{zeros};
ghost use Rattle.git_object.specs.Repository.{Repository, object_at};
ghost use Rattle.keeper_api.specs.Faults.{keeper_failed};
ghost use Rattle.keeper_api.specs.Undisturbed.{Undisturbed};
ghost use Rattle.pushes.specs.Pushes.{AreRising, object_in};
ghost use Rattle.pushes.specs.Naming.{names_of};
ghost use Rattle.pushes.specs.Needing.{IsComplete, IsIncomplete, IsNeeded, IsNowhere};
ghost use Rattle.pushes.specs.Needing.{first_ids, is_done, names_in, start_of};

use crate::find_object;
use crate::naming::names_of;
use git_object::{Object, ObjectId};
use keeper_api::{Keeper, KeeperFault, load_object};
use octets::Memory;
use placed_items::Placed;
use rsl_chain::EntryBody;
use std::alloc::Global;

fn is_zeros(id: &ObjectId) -> bool
    ensures { result ≡ bytes_eq id.now zeros }
{
    id.as_bytes() == ObjectId::zeros().as_bytes()
}

/// Whether an id is not visited any more, or never.
pub fn is_done(seen: &Placed<ObjectId>, id: &ObjectId) -> bool
    ensures { result ≡ is_done seen.now id.now }
{
    if is_zeros(id) {
        return true;
    }
    seen.has(id)
}

/// Puts what an object names in front of what is ahead, whose front is at its end.
pub fn put_names(alloc: Global, object: &Object, ahead: &mut Vec<ObjectId>) -> Result<(), Memory>
    ensures { OnOk result (reverse ahead.new.items ≡ names_of object.now ++ reverse ahead.old.items) }
{
    let mut names = names_of(alloc, object)?;
    names.as_mut_slice().reverse();
    ahead.extend_from_slice(names.as_slice())?;
    Ok(())
}

/// Whether the store has an object of this id.
pub fn is_kept<R: Keeper>(alloc: Global, keeper: &mut R, id: &ObjectId) -> Result<bool, KeeperFault>
    ensures there { IfOk result (λ kept. IsTrue kept → (r : Repository) → R.content keeper.new ≡ Some r
        → object_at r id.now ≡ None → ⊥) }
    ensures none { IfOk result (λ kept. kept ≡ false → (r : Repository) → R.content keeper.new ≡ Some r
        → object_at r id.now ≡ None) }
    ensures same { Undisturbed R.Keeper keeper.old keeper.new }
    ensures cause { HasCause keeper_failed (R.faults keeper.old) (R.faults keeper.new) result }
{
    let Some(_object) = load_object(alloc, keeper, id)? else {
        return Ok(false);
    };
    Ok(true)
}

// Goes on from an id that is in the push; of any other, whether the store has it.
fn follow<R: Keeper>(
    alloc: Global,
    keeper: &mut R,
    objects: &[Object],
    id: &ObjectId,
    ahead: &mut Vec<ObjectId>,
) -> Result<bool, KeeperFault>
    requires { AreRising objects.now }
    ensures goes { IfOk result (λ there. IsTrue there
        → reverse ahead.new.items ≡ names_in objects.now id.now ++ reverse ahead.old.items) }
    ensures there { IfOk result (λ there. IsTrue there → (r : Repository) → R.content keeper.new ≡ Some r
        → IsNowhere objects.now r id.now → ⊥) }
    ensures not_pushed { IfOk result (λ there. there ≡ false → object_in objects.now id.now ≡ None) }
    ensures not_kept { IfOk result (λ there. there ≡ false → (r : Repository) → R.content keeper.new ≡ Some r
        → object_at r id.now ≡ None) }
    ensures same { Undisturbed R.Keeper keeper.old keeper.new }
    ensures cause { HasCause keeper_failed (R.faults keeper.old) (R.faults keeper.new) result }
{
    match find_object(objects, id) {
        Some(object) => {
            put_names(alloc, object, ahead)?;
            Ok(true)
        }
        None => Ok(is_kept(alloc, keeper, id)?),
    }
}

// The ids with which the walk begins.
fn first_ids(alloc: Global, body: &EntryBody) -> Result<Vec<ObjectId>, Memory>
    ensures { IfOk result (λ ids. ids.items ≡ first_ids body.now) }
{
    let mut ids = Vec::new(alloc);
    match body {
        EntryBody::Reference { name: _, target } => {
            ids.push(*target)?;
            Ok(ids)
        }
        EntryBody::Annotation {
            ids: _,
            skip: _,
            message: _,
        } => Ok(ids),
    }
}

/// The first id that an entry with these objects needs and that neither they nor the store have: depth first from the
/// entry's target, through what the objects name, each id at its first visit. Objects of the store are not walked
/// through.
pub fn first_missing<R: Keeper>(
    alloc: Global,
    keeper: &mut R,
    objects: &[Object],
    body: &EntryBody,
) -> Result<Option<ObjectId>, KeeperFault>
    requires { AreRising objects.now }
    ensures missing { IfOk result (λ found. (r : Repository) → R.content keeper.new ≡ Some r
        → IfSome found (IsIncomplete objects.now r (start_of body.now))) }
    ensures needed { IfOk result (λ found. IfSome found (IsNeeded objects.now (start_of body.now))) }
    ensures complete { IfOk result (λ found. (r : Repository) → R.content keeper.new ≡ Some r
        → IfNone found (IsComplete objects.now r (start_of body.now))) }
    ensures same { Undisturbed R.Keeper keeper.old keeper.new }
    ensures cause { HasCause keeper_failed (R.faults keeper.old) (R.faults keeper.new) result }
{
    let mut seen: Placed<ObjectId> = Placed::new(alloc);
    let mut ahead = first_ids(alloc, body)?;
    'ids: while let Some(id) = ahead.pop() {
        if is_done(&seen, &id) {
            continue;
        }
        seen.push(id)?;
        if !follow(alloc, keeper, objects, &id, &mut ahead)? {
            return Ok(Some(id));
        }
    }
    Ok(None)
}
