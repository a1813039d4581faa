//! The places of ids in a list of objects, in a map beside it.

ghost use Rattle.std.specs.Prelude.{◌≡◌, ℕ, List, Some, IfOk, OnOk, if◌then◌else◌, option_and_then, slice_get};
ghost use Rattle.std.specs.Option.{option_copied};
ghost use Rattle.std.specs.BTreeMap as tree;
ghost use Rattle.std.specs.Ordering.{is_eq};
ghost use Rattle.octets.specs.BytesMap.{by_bytes};
ghost use Rattle.keeper_layers.specs.Overlaying.{AreLast};

use git_object::{Object, ObjectId};
use octets::Memory;
use std::alloc::Global;
use std::collections::BTreeMap;

// Keeps a place under an id, in place of an earlier one.
fn put_place(
    places: &mut BTreeMap<ObjectId, usize>,
    id: &ObjectId,
    place: usize,
) -> Result<(), Memory>
    ensures { OnOk result ((q : List ℕ) → tree.get by_bytes places.new q
        ≡ (if is_eq (by_bytes id.now q) then Some place else tree.get by_bytes places.old q)) }
{
    let _had = places.insert(*id, place)?;
    Ok(())
}

/// The place of the last object of each id.
pub fn places_of(alloc: Global, objects: &[Object]) -> Result<BTreeMap<ObjectId, usize>, Memory>
    ensures { IfOk result (AreLast objects.now) }
{
    let mut places = BTreeMap::new(alloc);
    for (at, object) in objects.iter().enumerate() {
        put_place(&mut places, &object.id(), at)?;
    }
    Ok(places)
}

/// The object at the place of an id.
pub fn object_of<'a>(
    objects: &'a [Object],
    places: &BTreeMap<ObjectId, usize>,
    id: &ObjectId,
) -> Option<&'a Object>
    ensures { option_copied result ≡ option_and_then (slice_get objects.now) (tree.get by_bytes places.now id.now) }
{
    match places.get(id) {
        Some(at) => objects.get(*at),
        None => None,
    }
}
