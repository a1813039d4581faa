//! Lists as sets, in the order of bytes.

ghost use Rattle.std.specs.Prelude.{◌≡◌, IfOk};
ghost use Rattle.root_metadata.specs.Shapes.{set_of};

use crate::{KeyId, KeyIds, Keyed, Rising};
use octets::{Items, Memory, Octets};
use std::alloc::Global;
use std::collections::BTreeSet;

/// A set of names, in the order of their bytes.
pub type Names = Rising<Octets>;

impl Keyed for Octets {
    ghost key = { λ name. name };

    fn key(&self) -> &[u8] {
        self.as_slice()
    }
}

/// The names as a set.
pub(crate) fn name_set(alloc: Global, names: &[Octets]) -> Result<Names, Memory>
    ensures { IfOk result (λ set. set ≡ set_of names.now) }
{
    let mut set = BTreeSet::new(alloc);
    'names: for name in names {
        set.insert(name.copy()?)?;
    }
    let mut list = Items::new(alloc);
    'kept: for name in set {
        list.push(name)?;
    }
    Ok(Rising::from_rising(list))
}

/// The ids as a set.
pub fn id_set(alloc: Global, ids: &[KeyId]) -> Result<KeyIds, Memory>
    ensures { IfOk result (λ set. set ≡ set_of ids.now) }
{
    let mut set = BTreeSet::new(alloc);
    'ids: for id in ids {
        set.insert(*id)?;
    }
    let mut list = Items::new(alloc);
    'kept: for id in set {
        list.push(id)?;
    }
    Ok(Rising::from_rising(list))
}
