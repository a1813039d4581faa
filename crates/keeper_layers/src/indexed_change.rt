//! A change in which the object of an id is found by one look-up.

ghost use Rattle.std.specs.Prelude.{◌≡◌, IfOk};
ghost use Rattle.std.specs.Option.{option_copied};
ghost use Rattle.keeper_layers.specs.Overlaying.{FindsLast};

use crate::indexing::{object_of, places_of};
use git_object::{Object, ObjectId};
use keeper_api::Change;
use octets::Memory;
use std::alloc::Global;
use std::collections::BTreeMap;
use std::marker::Model;

/// A change, and the place of each of its objects. It is made once, and then lent to overlays.
#[derive(Drop)]
pub struct IndexedChange {
    change: Change,
    places: BTreeMap<ObjectId, usize>,
}

impl Model for IndexedChange {
    ghost use Rattle.keeper_api.specs.declared.changes.Change.{Change};
    ghost use Rattle.keeper_layers.specs.Overlaying.{AreLast};

    ghost Value = { Change };

    ghost view = { λ c. c.change };

    ghost invariant = { λ c. AreLast c.change.objects c.places };
}

impl IndexedChange {
    /// The change with the places of its objects. It takes memory for these alone, and hashes nothing that is hashed
    /// already.
    pub fn new(alloc: Global, change: Change) -> Result<IndexedChange, Memory>
        ensures { IfOk result (λ indexed. indexed ≡ change) }
    {
        let places = places_of(alloc, change.objects.as_slice())?;
        Ok(IndexedChange { change, places })
    }

    /// The object that a store would keep under an id for this change: the last of its objects that has the id. It
    /// takes no memory.
    pub fn object(&self, id: &ObjectId) -> Option<&Object>
        ensures { FindsLast self.now.objects id.now (option_copied result) }
    {
        object_of(self.change.objects.as_slice(), &self.places, id)
    }
}
