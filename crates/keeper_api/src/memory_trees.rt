//! The two trees of a keeper in memory: a change of both, and the entry after a key.

ghost use Rattle.std.specs.Prelude.{◌≡◌, map, slice_get, Option, IfOk, IsTrue, OnOk, OnErr};
ghost use Rattle.std.specs.BTreeMap.{IsOrdered};
ghost use Rattle.std.specs.FinMap.{empty};
ghost use Rattle.std.specs.BTreeMap.Range.{entries_between};
ghost use Rattle.std.specs.Map.Iter.{deref_pair};
ghost use Rattle.std.specs.Option.{option_map, option_copied};
ghost use Rattle.std.specs.declared.ops.Bound.TheVariants.{Unbounded};
ghost use Rattle.octets.specs.BytesMap.{map_of};
ghost use Rattle.git_object.specs.Objects.{pair_id};
ghost use Rattle.keeper_api.specs.Changes.{with_objects, with_refs};
ghost use Rattle.keeper_api.specs.Halves.{AreNew, half};
ghost use Rattle.keeper_api.specs.Trees.{bound_after};

use crate::Change;
use crate::ref_plans::plan_of;
use crate::tree_edits::{insert_all, remove_all, restore};
use git_object::{Memory, Object, ObjectId, RefName};
use octets::Copied;
use std::alloc::Global;
use std::collections::BTreeMap;
use std::ops::Bound;

pub type ObjectTree = BTreeMap<ObjectId, Object>;

pub type RefTree = BTreeMap<RefName, ObjectId>;

// The entries that keep objects, each under its own id.
fn entries_of(alloc: Global, objects: &[Object]) -> Result<Vec<(ObjectId, Object)>, Memory>
    ensures { IfOk result (λ entries. entries.items ≡ map (λ pair. (pair_id pair, pair)) objects.now) }
{
    let mut entries = Vec::with_capacity(alloc, objects.len())?;
    for object in objects {
        entries.push((object.id(), object.copied()?))?;
    }
    Ok(entries)
}

// Keeps the objects at each second place under their own ids: from the first on, or from the second. Answers whether
// nothing was kept there before, and stops where something was.
fn keep_half(tree: &mut ObjectTree, objects: &[Object], first: bool) -> Result<bool, Memory>
    ensures { IfOk result (λ new. IsTrue new
        → (map_of tree.new ≡ with_objects (half first objects.now) (map_of tree.old))
        × AreNew (half first objects.now) (map_of tree.old)) }
{
    let mut is_taken = first;
    'objects: for object in objects {
        if is_taken {
            let copy = object.copied()?;
            match tree.insert(object.id(), copy)? {
                Some(_) => return Ok(false),
                None => {}
            }
        }
        is_taken = !is_taken;
    }
    Ok(true)
}

// A tree of objects, each kept under its own id in the order of the list.
fn tree_in_order(alloc: Global, objects: &[Object]) -> Result<ObjectTree, Memory>
    ensures { IfOk result (λ tree. map_of tree ≡ with_objects objects.now empty) }
{
    let mut tree = BTreeMap::new(alloc);
    'objects: for object in objects {
        let copy = object.copied()?;
        let _ = tree.insert(object.id(), copy)?;
    }
    Ok(tree)
}

// A tree of objects, each under its own id. Where ids rise, as in a stream, each second object goes first and leaves
// nodes half full, which the others fill; in their order all would stay half full.
fn tree_of(alloc: Global, objects: &[Object]) -> Result<ObjectTree, Memory>
    ensures { IfOk result (λ tree. map_of tree ≡ with_objects objects.now empty) }
{
    let mut tree = BTreeMap::new(alloc);
    if keep_half(&mut tree, objects, true)? && keep_half(&mut tree, objects, false)? {
        return Ok(tree);
    }
    tree_in_order(alloc, objects)
}

// Makes a change of two trees of which that of the objects is empty: it is made anew, so that nothing has to be taken
// back.
fn fill(
    alloc: Global,
    objects: &mut ObjectTree,
    refs: &mut RefTree,
    change: &Change,
) -> Result<(), Memory>
    requires { map_of objects.old ≡ empty }
    ensures objects { OnOk result (map_of objects.new ≡ with_objects change.now.objects empty) }
    ensures refs { OnOk result (map_of refs.new ≡ with_refs change.now.refs (map_of refs.old)) }
    ensures err_objects { OnErr result (map_of objects.new ≡ map_of objects.old) }
    ensures err_refs { OnErr result (map_of refs.new ≡ map_of refs.old) }
{
    let filled = tree_of(alloc, change.objects.as_slice())?;
    let plan = plan_of(alloc, change.refs.as_slice())?;
    match insert_all(alloc, refs, plan.sets) {
        Ok(_) => {
            remove_all(refs, plan.gone);
            *objects = filled;
            Ok(())
        }
        Err(refused) => Err(refused),
    }
}

// Makes a change of two trees, entry by entry.
fn add(
    alloc: Global,
    objects: &mut ObjectTree,
    refs: &mut RefTree,
    change: &Change,
) -> Result<(), Memory>
    ensures objects { OnOk result (map_of objects.new ≡ with_objects change.now.objects (map_of objects.old)) }
    ensures refs { OnOk result (map_of refs.new ≡ with_refs change.now.refs (map_of refs.old)) }
    ensures err_objects { OnErr result (map_of objects.new ≡ map_of objects.old) }
    ensures err_refs { OnErr result (map_of refs.new ≡ map_of refs.old) }
{
    let entries = entries_of(alloc, change.objects.as_slice())?;
    let plan = plan_of(alloc, change.refs.as_slice())?;
    let undo = insert_all(alloc, objects, entries)?;
    match insert_all(alloc, refs, plan.sets) {
        Ok(_) => {
            remove_all(refs, plan.gone);
            Ok(())
        }
        Err(refused) => {
            restore(objects, undo);
            Err(refused)
        }
    }
}

/// Makes a change of both trees. After a refusal they hold what they held.
pub fn apply(
    alloc: Global,
    objects: &mut ObjectTree,
    refs: &mut RefTree,
    change: &Change,
) -> Result<(), Memory>
    ensures objects { OnOk result (map_of objects.new ≡ with_objects change.now.objects (map_of objects.old)) }
    ensures refs { OnOk result (map_of refs.new ≡ with_refs change.now.refs (map_of refs.old)) }
    ensures err_objects { OnErr result (map_of objects.new ≡ map_of objects.old) }
    ensures err_refs { OnErr result (map_of refs.new ≡ map_of refs.old) }
{
    if objects.is_empty() {
        return fill(alloc, objects, refs, change);
    }
    add(alloc, objects, refs, change)
}

/// The first entry after a key, or the first of all.
pub fn first_after<'a, K: Ord, V>(
    map: &'a BTreeMap<K, V>,
    after: Option<&'a K>,
) -> Option<(&'a K, &'a V)>
    ensures first { option_map deref_pair result
        ≡ slice_get (entries_between K.cmp (bound_after (option_copied after.entry)) Unbounded map.now.entries) 0 }
    ensures ordered { IsOrdered K.cmp map.now }
{
    let start = match after {
        Some(key) => Bound::Excluded(key),
        None => Bound::Unbounded,
    };
    map.range((start, Bound::Unbounded)).next()
}
