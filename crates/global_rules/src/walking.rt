//! Walks through ancestors.

ghost use Rattle.std.specs.Prelude.{◌≡◌, ◌≤◌, ◌<◌, ◌+◌, ◌-◌, ℕ, List, length, slice_get, Some, IfOk, IfSome, IfNone};
ghost use Rattle.std.specs.Prelude.{OnOk};
ghost use Rattle.std.specs.Str.{bytes_eq};
ghost use Rattle.octets.specs.Causes.{HasCause};
ghost use Rattle.git_object.specs.Repository.{Repository};
ghost use Rattle.keeper_api.specs.Faults.{keeper_failed};
ghost use Rattle.keeper_api.specs.Undisturbed.{Undisturbed};
ghost use Rattle.global_rules.specs.Commits.{NoCommits, commit_parents};
ghost use Rattle.global_rules.specs.Descents.{IsDescent, IsWalked};
ghost use Rattle.global_rules.specs.Order.{with_id, with_new};

use crate::Descent;
use crate::commits::load_parents;
use git_object::{Ids, ObjectId};
use keeper_api::{Keeper, KeeperFault};
use octets::Memory;
use placed_items::Placed;
use std::alloc::Global;

// Meets an id, unless it was met.
fn meet_one(met: &mut Placed<ObjectId>, id: &ObjectId) -> Result<(), Memory>
    ensures { OnOk result (met.new ≡ with_id met.old id.now) }
{
    if met.has(id) {
        return Ok(());
    }
    met.push(*id)
}

// Meets ids, each that was not met.
fn meet(met: &mut Placed<ObjectId>, ids: &[ObjectId]) -> Result<(), Memory>
    ensures { OnOk result (met.new ≡ with_new met.old ids.now) }
{
    'ids: for id in ids {
        meet_one(met, id)?;
    }
    Ok(())
}

// The parents of the first commit among ids from a place on, which goes to that commit's; to the end where there is
// none.
fn next_commit<R: Keeper>(
    alloc: Global,
    keeper: &mut R,
    ids: &[ObjectId],
    at: &mut usize,
) -> Result<Option<Ids>, KeeperFault>
    requires { at.old ≤ length ids.now }
    ensures on { at.old ≤ at.new }
    ensures within { at.new ≤ length ids.now }
    ensures passed { (r : Repository) → R.content keeper.new ≡ Some r
        → NoCommits (commit_parents r) ids.now at.old at.new }
    ensures there { IfOk result (λ found. IfSome found (λ parents. at.new < length ids.now)) }
    ensures found { IfOk result (λ found. IfSome found (λ parents. (r : Repository) → R.content keeper.new ≡ Some r
        → (id : List ℕ) → slice_get ids.now at.new ≡ Some id → commit_parents r id ≡ Some parents)) }
    ensures end { IfOk result (λ found. IfNone found (at.new ≡ length ids.now)) }
    ensures same { Undisturbed R.Keeper keeper.old keeper.new }
    ensures cause { HasCause keeper_failed (R.faults keeper.old) (R.faults keeper.new) result }
    ensures reads { R.reads keeper.new ≤ R.reads keeper.old + (at.new - at.old) + 1 }
    ensures few { R.reads keeper.new ≤ R.reads keeper.old + (length ids.now - at.old) }
{
    'places: while *at < ids.len() {
        let found = load_parents(alloc, keeper, &ids[*at])?;
        if found.is_some() {
            return Ok(found);
        }
        *at += 1;
    }
    Ok(None)
}

// Whether this id stands at a place.
fn is_at(ids: &[ObjectId], at: usize, wanted: &ObjectId) -> bool
    requires { at < length ids.now }
    ensures { (id : List ℕ) → slice_get ids.now at ≡ Some id → result ≡ bytes_eq id wanted.now }
{
    ids[at].as_bytes() == wanted.as_bytes()
}

/// Whether a commit is among the first so many ancestors of another, in the order of these. Each id that is met is read
/// once, and no more commits than so many and one more are read. What is kept of an id that is met is the id, and its
/// place.
pub(crate) fn walk<R: Keeper>(
    alloc: Global,
    keeper: &mut R,
    root: &ObjectId,
    from: &ObjectId,
    most: u64,
) -> Result<Descent, KeeperFault>
    ensures descent { IfOk result (λ descent. (r : Repository) → R.content keeper.new ≡ Some r
        → IsDescent most (commit_parents r) root.now from.now descent) }
    ensures same { Undisturbed R.Keeper keeper.old keeper.new }
    ensures cause { HasCause keeper_failed (R.faults keeper.old) (R.faults keeper.new) result }
    ensures walked { (r : Repository) → R.content keeper.new ≡ Some r
        → IsWalked most (commit_parents r) root.now (R.reads keeper.old) (R.reads keeper.new) }
{
    let mut met: Placed<ObjectId> = Placed::new(alloc);
    met.push(*root)?;
    let mut at = 0;
    'commits: for _count in 0..most {
        let Some(parents) = next_commit(alloc, keeper, met.as_slice(), &mut at)? else {
            return Ok(Descent::No);
        };
        if is_at(met.as_slice(), at, from) {
            return Ok(Descent::Yes);
        }
        meet(&mut met, parents.as_slice())?;
        at += 1;
    }
    match next_commit(alloc, keeper, met.as_slice(), &mut at)? {
        Some(_parents) => Ok(Descent::TooFar),
        None => Ok(Descent::No),
    }
}
