//! The keys and the persons of a file, to be found by their ids and names.

ghost use Rattle.std.specs.Prelude.{◌≡◌, IfOk, map};
ghost use Rattle.root_metadata.specs.Lookups.{IsIndex};

use crate::making::copy_names;
use crate::sets::{id_set, name_set};
use crate::{KeyId, KeyIds, Names, RawKey, Roster};
use octets::{Items, Memory};
use std::alloc::Global;

/// The ids of a file's keys and the names of its persons, as sets.
#[derive(Drop)]
pub struct Known {
    pub ids: KeyIds,
    pub names: Names,
}

// The ids of keys, in their order.
fn copy_ids(alloc: Global, keys: &[RawKey]) -> Result<Items<KeyId>, Memory>
    ensures { IfOk result (λ ids. ids ≡ map (λ k. k.id) keys.now) }
{
    let mut ids = Items::new(alloc);
    'keys: for key in keys {
        ids.push(key.id)?;
    }
    Ok(ids)
}

impl Known {
    /// What the keys and the persons of a file are found by.
    pub fn of(alloc: Global, roster: &Roster) -> Result<Known, Memory>
        ensures { IfOk result (λ known. IsIndex roster.now known) }
    {
        let ids = copy_ids(alloc, roster.keys.as_slice())?;
        let ids = id_set(alloc, ids.as_slice())?;
        let names = copy_names(alloc, roster.persons.as_slice())?;
        let names = name_set(alloc, names.as_slice())?;
        Ok(Known { ids, names })
    }
}
