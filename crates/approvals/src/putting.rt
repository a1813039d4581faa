//! Trees with a file put at a path, and nothing else changed.

ghost use Rattle.std.specs.Prelude.{◌≡◌, ◌≤◌, ◌++◌, ◌∷◌, [], ℕ, List, length, Ok, Err, IfOk, IfErr, IfNone, IfSome};
ghost use Rattle.std.specs.Prelude.{OnOk, Option};
ghost use Rattle.std.specs.List.{AllByRecursion};
ghost use Rattle.git_object.specs.EntryParts.{entry_of};
ghost use Rattle.git_object.specs.Names.{components};
ghost use Rattle.git_object.specs.Objects.{Pair, pair_id};
ghost use Rattle.git_object.specs.Trees.{AreWellFormed, IsEntryName};
ghost use Rattle.git_object.specs.declared.modes.Mode.TheVariants.{Dir, File};
ghost use Rattle.tree_paths.specs.Lookups.{entry_named};
ghost use Rattle.object_making.specs.Keeping.{Adds};
ghost use Rattle.object_making.specs.Editing.{put_entry};
ghost use Rattle.approvals.specs.Files.{Putting, put_below, put_last, tree_pair, with_tree};
ghost use Rattle.approvals.specs.Levels.{AreLevels, put_levels};
ghost use Rattle.object_making.specs.Named.{IsAlike};
ghost use Rattle.approvals.specs.Placing.{IfMade, IsPlaced};

use crate::surveys::Level;
use git_object::{
    Kind, LARGEST_BODY, Mode, Object, ObjectId, Objects, Octets, Tree, TreeEntries, TreeEntry,
};
use object_making::put_entry;
use octets::Memory;
use std::alloc::Global;
use tree_paths::{entry_named, is_dir, split_at_slash};

/// What came of putting a file: the id of the root's new tree, or the object that is in the way.
#[derive(Clone, Copy, Debug, PartialEq, Eq)]
pub enum Placed {
    Made(ObjectId),
    InWay(ObjectId),
}

// The old tree, where it is in the way of a body of more than 16 MiB.
fn in_way_of(old: &Option<ObjectId>, body: &Octets) -> Option<ObjectId>
    ensures some { IfSome result (λ id. (below : List Pair) (pair : Pair) → pair.body ≡ body.now
        → with_tree old.now below pair ≡ Err id) }
    ensures none { IfNone result ((below : List Pair) (pair : Pair) → pair.body ≡ body.now
        → with_tree old.now below pair ≡ Ok (record { objects = below ++ pair ∷ []; root = pair_id pair })) }
{
    let Some(id) = old else {
        return None;
    };
    if body.len() as u64 > LARGEST_BODY {
        return Some(*id);
    }
    None
}

// The id under a name, where a directory stands there.
fn dir_in_way(entries: &[TreeEntry], name: &[u8]) -> Option<ObjectId>
    ensures some { IfSome result (λ id. (old : Option (List ℕ)) (blob : List ℕ)
        → put_last old name.now blob entries.now (entry_named name.now entries.now) ≡ Err id) }
    ensures none { IfNone result ((old : Option (List ℕ)) (blob : List ℕ)
        → put_last old name.now blob entries.now (entry_named name.now entries.now) ≡ with_tree old []
        (tree_pair (put_entry (entry_of File name.now blob) entries.now))) }
    ensures alike { IfNone result (IsAlike File (entry_named name.now entries.now)) }
{
    let Some(entry) = entry_named(entries, name) else {
        return None;
    };
    if is_dir(entry.mode) {
        return Some(entry.id);
    }
    None
}

// The tree with an entry put in its place, added to the objects. An old tree is in the way of one of more than 16 MiB.
fn put_tree(
    alloc: Global,
    old: &Option<ObjectId>,
    entries: &[TreeEntry],
    entry: TreeEntry,
    objects: &mut Objects,
) -> Result<Placed, Memory>
    requires formed { AreWellFormed entries.now }
    requires named { IsEntryName entry.name }
    requires alike { IsAlike entry.mode (entry_named entry.name entries.now) }
    ensures placed { IfOk result (λ placed. (before below : List Pair) → objects.old ≡ before ++ below
        → IsPlaced placed (with_tree old.now below (tree_pair (put_entry entry entries.now))) before objects.new) }
    ensures added { IfOk result (λ placed. IfMade placed (Adds objects.old objects.new)) }
{
    let list = put_entry(alloc, entries, entry)?;
    let tree = Tree { entries: list };
    let body = tree.write(alloc)?;
    if let Some(id) = in_way_of(old, &body) {
        return Ok(Placed::InWay(id));
    }
    let object = Object::new(alloc, Kind::Tree, body)?;
    let root = object.id();
    objects.push(object)?;
    Ok(Placed::Made(root))
}

/// The id under a name, where a directory stands there; None where nothing does; or the other thing that is in the way.
pub fn dir_named(entries: &[TreeEntry], name: &[u8]) -> Result<Option<ObjectId>, ObjectId>
    ensures found { IfOk result (λ dir. (next : Option (List ℕ) → Putting)
        → put_below next (entry_named name.now entries.now) ≡ next dir) }
    ensures alike { OnOk result (IsAlike Dir (entry_named name.now entries.now)) }
    ensures other { IfErr result (λ id. (next : Option (List ℕ) → Putting)
        → put_below next (entry_named name.now entries.now) ≡ Err id) }
{
    match entry_named(entries, name) {
        Some(entry) => {
            if !is_dir(entry.mode) {
                return Err(entry.id);
            }
            Ok(Some(entry.id))
        }
        None => Ok(None),
    }
}

// The tree with a file put in its place, added to the objects: a directory is in its way.
fn put_last(
    alloc: Global,
    old: &Option<ObjectId>,
    entries: &[TreeEntry],
    name: &[u8],
    blob: &ObjectId,
    objects: &mut Objects,
) -> Result<Placed, Memory>
    requires formed { AreWellFormed entries.now }
    requires named { IsEntryName name.now }
    ensures placed { IfOk result (λ placed. IsPlaced placed
        (put_last old.now name.now blob.now entries.now (entry_named name.now entries.now)) objects.old objects.new) }
    ensures added { IfOk result (λ placed. IfMade placed (Adds objects.old objects.new)) }
{
    if let Some(id) = dir_in_way(entries, name) {
        return Ok(Placed::InWay(id));
    }
    let entry = TreeEntry {
        mode: Mode::File,
        name: Octets::from_slice(alloc, name)?,
        id: *blob,
    };
    let placed = put_tree(alloc, old, entries, entry, objects)?;
    Ok(placed)
}

/// Puts a file at a path whose directories were read: makes the new trees on the way, each the old one with one entry
/// put in its place, adds them to the objects, those below first, and answers the id of the root's, or the first object
/// that is in the way. After that, or after a refusal, some of the trees may have been added. It is as many calls deep
/// as the path has names.
pub fn put_levels(
    alloc: Global,
    levels: &[Level],
    path: &[u8],
    blob: &ObjectId,
    objects: &mut Objects,
) -> Result<Placed, Memory>
    requires named { AllByRecursion IsEntryName (components path.now) }
    requires few { length (components path.now) ≤ 18 }
    requires levels { AreLevels (components path.now) levels.now }
    ensures placed { IfOk result (λ placed. IsPlaced placed (put_levels blob.now (components path.now) levels.now)
        objects.old objects.new) }
    ensures added { IfOk result (λ placed. IfMade placed (Adds objects.old objects.new)) }
{
    let Some((level, below)) = levels.split_first() else {
        unreachable!();
    };
    let entries = level.entries.as_slice();
    let Some((name, rest)) = split_at_slash(path) else {
        let placed = put_last(alloc, &level.old, entries, path, blob, objects)?;
        return Ok(placed);
    };
    if let Err(id) = dir_named(entries, name) {
        return Ok(Placed::InWay(id));
    }
    let id = match put_levels(alloc, below, rest, blob, objects)? {
        Placed::Made(id) => id,
        Placed::InWay(id) => return Ok(Placed::InWay(id)),
    };
    let entry = TreeEntry {
        mode: Mode::Dir,
        name: Octets::from_slice(alloc, name)?,
        id,
    };
    let placed = put_tree(alloc, &level.old, entries, entry, objects)?;
    Ok(placed)
}
