//! The keys of a store's files, in order, as a list that is kept while the store changes.

ghost use Rattle.std.specs.Prelude.{◌≡◌};
ghost use Rattle.std.specs.BTreeSet.{keys_between};
ghost use Rattle.std.specs.Option.{option_copied};
ghost use Rattle.std.specs.declared.ops.Bound.TheVariants.{Unbounded};
ghost use Rattle.keeper_directory.specs.Following.{bound_after};

use octets::Memory;
use std::alloc::Global;
use std::collections::BTreeSet;
use std::collections::btree_set::Range;
use std::ops::Bound;

/// These keys in order, each once.
pub fn set_of<K: Ord + Drop>(alloc: Global, keys: Vec<K>) -> Result<BTreeSet<K>, Memory> {
    let mut set = BTreeSet::new(alloc);
    for key in keys {
        set.insert(key)?;
    }
    Ok(set)
}

/// The keys that are greater than the one given, or all, in order.
pub fn keys_after<'a, K: Ord>(set: &'a BTreeSet<K>, after: Option<&'a K>) -> Range<'a, K>
    ensures { result ≡ keys_between K.cmp (bound_after (option_copied after.entry)) Unbounded set.now }
{
    let start = match after {
        Some(key) => Bound::Excluded(key),
        None => Bound::Unbounded,
    };
    set.range((start, Bound::Unbounded))
}
