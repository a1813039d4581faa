//! A list whose items stand under ids.

ghost use Rattle.std.specs.Prelude.{◌≡◌, ◌-◌, ◌<◌, ◌^◌, ◌++◌, ◌∷◌, [], List, ℕ, length, slice_get, take, IfSome};
ghost use Rattle.std.specs.Prelude.{OnOk, OnErr};
ghost use Rattle.std.specs.Option.{option_copied};
ghost use Rattle.placed_items.specs.Places.{has_id, place_of};

use crate::index::{Places, place_at, pop_item, push_item};
use git_object::ObjectId;
use octets::Memory;
use std::alloc::Global;
use std::collections::BTreeMap;
use std::marker::Model;

/// A value that stands under an id.
pub trait Identified: Drop + Sized {
    /// The id.
    ghost id: { Self → List ℕ };

    /// The id.
    fn id(&self) -> ObjectId
        ensures { result ≡ id self.now };
}

impl Identified for ObjectId {
    ghost id = { λ id. id };

    fn id(&self) -> ObjectId {
        *self
    }
}

/// A list of items in the order in which they were added, and the first place of each id. An id may stand twice.
/// Finding a place takes one look-up, and no memory.
#[derive(Drop)]
pub struct Placed<T: Identified> {
    items: Vec<T>,
    places: Places,
}

impl<T: Identified> Model for Placed<T> {
    ghost use Rattle.std.specs.Prelude.{List};
    ghost use Rattle.placed_items.specs.Fronts.{AreTold, place_in};

    ghost Value = { List T };

    ghost view = { λ s. s.items.items };

    ghost invariant = { λ s. AreTold T.id s.items.items (place_in s.places.fronts) (place_in s.places.wholes) };
}

impl<T: Identified> Placed<T> {
    /// The empty list. It takes no memory.
    pub fn new(alloc: Global) -> Self
        ensures { result ≡ [] }
    {
        Placed {
            items: Vec::new(alloc),
            places: Places {
                fronts: BTreeMap::new(alloc),
                wholes: BTreeMap::new(alloc),
            },
        }
    }

    /// The number of items.
    pub fn len(&self) -> usize
        ensures count { result ≡ length self.now }
        ensures small { result < 2 ^ 63 }
    {
        self.items.len()
    }

    /// The items in their order, lent.
    pub fn as_slice(&self) -> &[T]
        ensures { result.now ≡ self.now }
    {
        self.items.as_slice()
    }

    /// The item at a place counted from 0, or None at the length and past it.
    pub fn get(&self, at: usize) -> Option<&T>
        ensures { option_copied result ≡ slice_get self.now at }
    {
        self.items.as_slice().get(at)
    }

    /// The first place of an id, counted from 0.
    pub fn place(&self, id: &ObjectId) -> Option<usize>
        ensures place { result ≡ place_of T.id self.now id.now }
        ensures within { IfSome result (λ n. n < length self.now) }
        ensures small { IfSome result (λ n. n < 2 ^ 63) }
    {
        // It is less than this, so that there is a next number.
        let _count = self.len();
        place_at(self.items.as_slice(), &self.places, id)
    }

    /// Whether an item stands under this id.
    pub fn has(&self, id: &ObjectId) -> bool
        ensures { result ≡ has_id T.id self.now id.now }
    {
        self.place(id).is_some()
    }

    /// Adds an item at the end. After a refusal the list is as before, and the item is dropped.
    pub fn push(&mut self, item: T) -> Result<(), Memory>
        ensures added { OnOk result (self.new ≡ self.old ++ item ∷ []) }
        ensures same { OnErr result (self.new ≡ self.old) }
    {
        push_item(&mut self.items, &mut self.places, item)
    }

    /// Takes the last item away, if there is one. It takes no memory.
    pub fn pop(&mut self)
        ensures { self.new ≡ take (length self.old - 1) self.old }
    {
        pop_item(&mut self.items, &mut self.places)
    }
}
