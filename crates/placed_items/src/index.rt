//! The places of ids, in two maps beside the list.

ghost use Rattle.std.specs.Prelude.{◌≡◌, ◌-◌, ◌++◌, ◌∷◌, [], length, take, slice_get, OnOk, OnErr};
ghost use Rattle.placed_items.specs.Fronts.{AreTold, IsPut, front_of, place_in, stands_under, told_place};

use crate::Identified;
use crate::fronts::{
    Front, front_of, front_place, let_front_go, let_whole_go, put_front, put_whole, whole_place,
};
use git_object::ObjectId;
use octets::Memory;
use std::collections::BTreeMap;

/// The place of each id: under its first four bytes, and under the whole id where these have the place of another id
/// or the place needs more than 32 bits. A place of 32 bits under four bytes takes a quarter of what one under a whole
/// id does. Whoever makes ids that begin alike has each of them stand whole, as all ids would in a map of ids.
#[derive(Drop)]
pub struct Places {
    pub fronts: BTreeMap<Front, u32>,
    pub wholes: BTreeMap<ObjectId, usize>,
}

// Whether an item is there and stands under an id.
fn stands_at<T: Identified>(items: &[T], at: usize, id: &ObjectId) -> bool
    ensures { result ≡ stands_under T.id (slice_get items.now at) id.now }
{
    match items.get(at) {
        Some(item) => item.id() == *id,
        None => false,
    }
}

/// The place of an id, where it has one.
pub fn place_at<T: Identified>(items: &[T], places: &Places, id: &ObjectId) -> Option<usize>
    ensures { result ≡ told_place T.id items.now (place_in places.now.fronts) (place_in places.now.wholes) id.now }
{
    if let Some(place) = whole_place(&places.wholes, id) {
        return Some(place);
    }
    match front_place(&places.fronts, &front_of(id)) {
        Some(place) if stands_at(items, place, id) => Some(place),
        _ => None,
    }
}

// Keeps the place of an id that has none. After a refusal nothing has changed.
fn put_place(places: &mut Places, id: &ObjectId, place: usize) -> Result<(), Memory>
    ensures put { OnOk result (IsPut (place_in places.old.fronts) (place_in places.old.wholes)
        (place_in places.new.fronts) (place_in places.new.wholes) id.now place) }
    ensures same_fronts { OnErr result (places.new.fronts.entries ≡ places.old.fronts.entries) }
    ensures same_wholes { OnErr result (places.new.wholes.entries ≡ places.old.wholes.entries) }
{
    let front = front_of(id);
    if place <= 0xffff_ffff && front_place(&places.fronts, &front).is_none() {
        return put_front(&mut places.fronts, &front, place as u32);
    }
    put_whole(&mut places.wholes, id, place)
}

// Adds an item at the end. A full list grows by an eighth, since one that doubles keeps room for as much again.
fn add_item<T: Drop>(items: &mut Vec<T>, item: T) -> Result<(), Memory>
    ensures added { OnOk result (items.new.items ≡ items.old.items ++ item ∷ []) }
    ensures same { OnErr result (items.new.items ≡ items.old.items) }
{
    let count = items.len();
    if count == items.capacity() {
        items.reserve_exact(count / 8 + 4)?;
    }
    items.push(item)?;
    Ok(())
}

/// Adds an item at the end. After a refusal nothing has changed.
pub fn push_item<T: Identified>(
    items: &mut Vec<T>,
    places: &mut Places,
    item: T,
) -> Result<(), Memory>
    requires told { AreTold T.id items.old.items (place_in places.old.fronts) (place_in places.old.wholes) }
    ensures added { OnOk result (items.new.items ≡ items.old.items ++ item ∷ []) }
    ensures same { OnErr result (items.new.items ≡ items.old.items) }
    ensures told { AreTold T.id items.new.items (place_in places.new.fronts) (place_in places.new.wholes) }
{
    let id = item.id();
    let place = items.len();
    let has = place_at(items.as_slice(), places, &id).is_some();
    add_item(items, item)?;
    if has {
        return Ok(());
    }
    match put_place(places, &id, place) {
        Ok(()) => Ok(()),
        Err(Memory) => {
            let _last = items.pop();
            Err(Memory)
        }
    }
}

/// Takes the last item away, if there is one.
pub fn pop_item<T: Identified>(items: &mut Vec<T>, places: &mut Places)
    requires told { AreTold T.id items.old.items (place_in places.old.fronts) (place_in places.old.wholes) }
    ensures items { items.new.items ≡ take (length items.old.items - 1) items.old.items }
    ensures told { AreTold T.id items.new.items (place_in places.new.fronts) (place_in places.new.wholes) }
{
    let Some(last) = items.pop() else {
        return;
    };
    let id = last.id();
    let place = items.len();
    let_front_go(&mut places.fronts, &front_of(&id), place);
    let_whole_go(&mut places.wholes, &id, place);
}
