//! The ids of the objects that go with an entry.

ghost use Rattle.std.specs.Prelude.{◌≡◌, ◌≢◌, ℕ, List, Some, IfOk, IfErr, IfSome, IfNone};
ghost use Rattle.octets.specs.Causes.{HasCause};
ghost use Rattle.git_object.specs.Repository.{Repository};
ghost use Rattle.keeper_api.specs.Faults.{keeper_failed};
ghost use Rattle.keeper_api.specs.Undisturbed.{Undisturbed};
ghost use Rattle.rsl_chain.specs.Logs.{log_failed};
ghost use Rattle.rsl_chain.specs.declared.entries.EntryBody.TheVariants.{Reference};
ghost use Rattle.pushes.specs.Going.{GoWith, IsBreakAmong, IsValueAfter};
ghost use Rattle.pushes.specs.Reaching.{AreReached};

use crate::walking::walk;
use git_object::{ObjectId, RefName};
use keeper_api::{Keeper, KeeperFault};
use placed_items::Placed;
use rsl_chain::{EntryBody, LogFault, read_entry};
use std::alloc::Global;

// The value that an entry's body records of a reference, where it records one.
fn target_in(body: &EntryBody, name: &RefName) -> Option<ObjectId>
    ensures some { IfSome result (λ target. body.now ≡ Reference name.now target) }
    ensures none { IfNone result ((target : List ℕ) → body.now ≢ Reference name.now target) }
{
    match body {
        EntryBody::Reference {
            name: other,
            target,
        } => { if other == name { Some(*target) } else { None } }
        EntryBody::Annotation {
            ids: _,
            skip: _,
            message: _,
        } => None,
    }
}

// The value that a reference has after these entries: what the last of them that records it says, or zeros. It reads
// back from the last of them to that one.
fn value_after<R: Keeper>(
    alloc: Global,
    keeper: &mut R,
    name: &RefName,
    before: &[ObjectId],
) -> Result<ObjectId, LogFault>
    ensures value { IfOk result (λ target. (r : Repository) → R.content keeper.new ≡ Some r
        → IsValueAfter r name.now before.now target) }
    ensures broken { IfErr result (λ fault. (r : Repository) → R.content keeper.new ≡ Some r
        → IsBreakAmong r before.now fault) }
    ensures same { Undisturbed R.Keeper keeper.old keeper.new }
    ensures cause { HasCause log_failed (R.faults keeper.old) (R.faults keeper.new) result }
{
    let mut end = before.len();
    'entries: while end > 0 {
        end -= 1;
        let entry = read_entry(alloc, keeper, &before[end])?;
        if let Some(target) = target_in(&entry.body, name) {
            return Ok(target);
        }
    }
    Ok(ObjectId::zeros())
}

// What is reached from a target and not from the one before, in the order in which it is visited.
fn reached_ids<R: Keeper>(
    alloc: Global,
    keeper: &mut R,
    before: &ObjectId,
    target: &ObjectId,
) -> Result<Vec<ObjectId>, KeeperFault>
    ensures reached { IfOk result (λ ids. (r : Repository) → R.content keeper.new ≡ Some r
        → AreReached r before.now target.now ids.items) }
    ensures same { Undisturbed R.Keeper keeper.old keeper.new }
    ensures cause { HasCause keeper_failed (R.faults keeper.old) (R.faults keeper.new) result }
{
    let mut seen: Placed<ObjectId> = Placed::new(alloc);
    walk(alloc, keeper, before, &mut seen)?;
    let known = seen.len();
    walk(alloc, keeper, target, &mut seen)?;
    let (_, reached) = seen.as_slice().split_at(known);
    let mut ids = Vec::new(alloc);
    ids.extend_from_slice(reached)?;
    Ok(ids)
}

/// The ids of the objects that go with an entry's body after these entries, beside the entry's own, in the order in
/// which they are visited.
pub(crate) fn ids_with<R: Keeper>(
    alloc: Global,
    keeper: &mut R,
    body: &EntryBody,
    before: &[ObjectId],
) -> Result<Vec<ObjectId>, LogFault>
    ensures go { IfOk result (λ ids. (r : Repository) → R.content keeper.new ≡ Some r
        → GoWith r before.now body.now ids.items) }
    ensures broken { IfErr result (λ fault. (r : Repository) → R.content keeper.new ≡ Some r
        → IsBreakAmong r before.now fault) }
    ensures same { Undisturbed R.Keeper keeper.old keeper.new }
    ensures cause { HasCause log_failed (R.faults keeper.old) (R.faults keeper.new) result }
{
    match body {
        EntryBody::Reference { name, target } => {
            let was = value_after(alloc, keeper, name, before)?;
            Ok(reached_ids(alloc, keeper, &was, target)?)
        }
        EntryBody::Annotation {
            ids: _,
            skip: _,
            message: _,
        } => Ok(Vec::new(alloc)),
    }
}
