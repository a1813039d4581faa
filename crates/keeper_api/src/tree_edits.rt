//! Inserts into a tree that are made all or not at all.

ghost use Rattle.std.specs.Prelude.{◌≡◌, ◌++◌, ◌∷◌, [], None, IfOk, IsSome, OnOk, OnErr, if◌then◌else◌};
ghost use Rattle.std.specs.BTreeMap as tree;
ghost use Rattle.std.specs.BTreeSet as set;
ghost use Rattle.std.specs.FinMap.{FinMap, IsAntisymmetric, get, insert};
ghost use Rattle.std.specs.Ordering.{eq_by_cmp};
ghost use Rattle.keeper_api.specs.Trees.{tree_map, with_entries};
ghost use Rattle.keeper_api.specs.Undoing.{Inserts};

use octets::{Copied, Memory};
use std::alloc::Global;
use std::collections::{BTreeMap, BTreeSet};

/// What keys held before they were given values, in order.
pub type Undo<K, V> = Vec<(K, Option<V>)>;

// Puts back what a key held before it was given a value. The key is there, so no insert wants memory.
fn put_back<K: Ord + Drop, V: Drop>(map: &mut BTreeMap<K, V>, key: K, had: Option<V>)
    ensures { (IsSome had → IsSome (tree.get K.cmp map.old key)) → (q : K)
        → tree.get K.cmp map.new q ≡ (if eq_by_cmp K.cmp key q then had else tree.get K.cmp map.old q) }
{
    match had {
        Some(value) => {
            let _ = map.insert(key, value);
        }
        None => {
            let _ = map.remove(&key);
        }
    }
}

// Inserts one entry and notes what its key held. After a refusal both are as before.
fn insert_one<K: Ord + Copied, V: Drop>(
    map: &mut BTreeMap<K, V>,
    undo: &mut Undo<K, V>,
    key: K,
    value: V,
) -> Result<(), Memory>
    requires { IsAntisymmetric K.cmp }
    ensures ok { OnOk result (tree_map K.cmp map.new ≡ insert (tree_map K.cmp map.old) key value) }
    ensures noted { OnOk result (undo.new.items ≡ undo.old.items ++ (key, get (tree_map K.cmp map.old) key) ∷ []) }
    ensures err { OnErr result (tree_map K.cmp map.new ≡ tree_map K.cmp map.old) }
    ensures err_undo { OnErr result (undo.new.items ≡ undo.old.items) }
{
    let again = key.copied()?;
    let had = map.insert(key, value)?;
    match undo.push((again, had)) {
        Ok(()) => Ok(()),
        Err(refused) => {
            let (key, had) = refused.value;
            put_back(map, key, had);
            Err(Memory)
        }
    }
}

/// Takes inserts back, the last first. It takes no memory.
pub fn restore<K: Ord + Drop, V: Drop>(map: &mut BTreeMap<K, V>, undo: Undo<K, V>)
    requires { IsAntisymmetric K.cmp }
    ensures { (first : FinMap K.cmp V) → Inserts first undo.items (tree_map K.cmp map.old)
        → tree_map K.cmp map.new ≡ first }
{
    let mut undo = undo;
    'steps: while let Some((key, had)) = undo.pop() {
        put_back(map, key, had);
    }
}

/// Inserts entries in order, and answers what takes that back. After a refusal the map is as before.
pub fn insert_all<K: Ord + Copied, V: Drop>(
    alloc: Global,
    map: &mut BTreeMap<K, V>,
    entries: Vec<(K, V)>,
) -> Result<Undo<K, V>, Memory>
    requires { IsAntisymmetric K.cmp }
    ensures ok { OnOk result (tree_map K.cmp map.new ≡ with_entries entries.items (tree_map K.cmp map.old)) }
    ensures undo { IfOk result (λ undo. Inserts (tree_map K.cmp map.old) undo.items (tree_map K.cmp map.new)) }
    ensures err { OnErr result (tree_map K.cmp map.new ≡ tree_map K.cmp map.old) }
{
    let mut undo = Vec::new(alloc);
    'entries: for (key, value) in entries {
        match insert_one(map, &mut undo, key, value) {
            Ok(()) => {}
            Err(refused) => {
                restore(map, undo);
                return Err(refused);
            }
        }
    }
    Ok(undo)
}

/// Takes keys away. It takes no memory.
pub fn remove_all<K: Ord + Drop, V: Drop>(map: &mut BTreeMap<K, V>, keys: BTreeSet<K>)
    ensures { (q : K) → tree.get K.cmp map.new q
        ≡ (if set.contains K.cmp keys q then None else tree.get K.cmp map.old q) }
{
    let mut keys = keys;
    'keys: while let Some(key) = keys.pop_first() {
        let _ = map.remove(&key);
    }
}
