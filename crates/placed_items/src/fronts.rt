//! Places under the first four bytes of ids, and under whole ids.

ghost use Rattle.std.specs.Prelude.{◌≡◌, ◌↔◌, ℕ, List, Some, None, if◌then◌else◌};
ghost use Rattle.std.specs.Prelude.{IsTrue, OnOk, OnErr};
ghost use Rattle.std.specs.BTreeMap as tree;
ghost use Rattle.std.specs.Ordering.{is_eq};
ghost use Rattle.octets.specs.BytesMap.{by_bytes};
ghost use Rattle.placed_items.specs.Fronts.{HasLetGo, front_of};

use git_object::ObjectId;
use octets::Memory;
use std::collections::BTreeMap;

// Whether a place is there and is this one.
fn is_at(found: Option<usize>, place: usize) -> bool
    ensures { IsTrue result ↔ (found ≡ Some place) }
{
    match found {
        Some(found) => found == place,
        None => false,
    }
}

/// The first bytes of an id.
pub type Front = [u8; 4];

/// The first four bytes of an id.
pub fn front_of(id: &ObjectId) -> Front
    ensures { result ≡ front_of id.now }
{
    let mut front = [0; 4];
    front.copy_from_slice(&id.as_bytes()[..4]);
    front
}

/// The place under a front, where it has one.
pub fn front_place(fronts: &BTreeMap<Front, u32>, front: &Front) -> Option<usize>
    ensures { result ≡ tree.get by_bytes fronts.now front.now }
{
    match fronts.get(front) {
        Some(&place) => Some(place as usize),
        None => None,
    }
}

/// Keeps a place under a front. After a refusal nothing has changed.
pub fn put_front(fronts: &mut BTreeMap<Front, u32>, front: &Front, place: u32) -> Result<(), Memory>
    ensures put { OnOk result ((q : List ℕ) → tree.get by_bytes fronts.new q
        ≡ (if is_eq (by_bytes front.now q) then Some place else tree.get by_bytes fronts.old q)) }
    ensures same { OnErr result (fronts.new.entries ≡ fronts.old.entries) }
{
    let _had = fronts.insert(*front, place)?;
    Ok(())
}

// Lets the place under a front go.
fn drop_front(fronts: &mut BTreeMap<Front, u32>, front: &Front)
    ensures { (q : List ℕ) → tree.get by_bytes fronts.new q
        ≡ (if is_eq (by_bytes front.now q) then None else tree.get by_bytes fronts.old q) }
{
    let _had = fronts.remove(front);
}

/// Lets a place under a front go, where it is this one.
pub fn let_front_go(fronts: &mut BTreeMap<Front, u32>, front: &Front, place: usize)
    ensures { HasLetGo (tree.get by_bytes fronts.old) (tree.get by_bytes fronts.new) front.now place }
{
    if is_at(front_place(fronts, front), place) {
        drop_front(fronts, front);
    }
}

/// The place under a whole id, where it has one.
pub fn whole_place(wholes: &BTreeMap<ObjectId, usize>, id: &ObjectId) -> Option<usize>
    ensures { result ≡ tree.get by_bytes wholes.now id.now }
{
    wholes.get(id).copied()
}

/// Keeps a place under a whole id. After a refusal nothing has changed.
pub fn put_whole(
    wholes: &mut BTreeMap<ObjectId, usize>,
    id: &ObjectId,
    place: usize,
) -> Result<(), Memory>
    ensures put { OnOk result ((q : List ℕ) → tree.get by_bytes wholes.new q
        ≡ (if is_eq (by_bytes id.now q) then Some place else tree.get by_bytes wholes.old q)) }
    ensures same { OnErr result (wholes.new.entries ≡ wholes.old.entries) }
{
    let _had = wholes.insert(*id, place)?;
    Ok(())
}

// Lets the place under a whole id go.
fn drop_whole(wholes: &mut BTreeMap<ObjectId, usize>, id: &ObjectId)
    ensures { (q : List ℕ) → tree.get by_bytes wholes.new q
        ≡ (if is_eq (by_bytes id.now q) then None else tree.get by_bytes wholes.old q) }
{
    let _had = wholes.remove(id);
}

/// Lets a place under a whole id go, where it is this one.
pub fn let_whole_go(wholes: &mut BTreeMap<ObjectId, usize>, id: &ObjectId, place: usize)
    ensures { HasLetGo (tree.get by_bytes wholes.old) (tree.get by_bytes wholes.new) id.now place }
{
    if is_at(whole_place(wholes, id), place) {
        drop_whole(wholes, id);
    }
}
