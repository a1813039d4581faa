//! What stands at a path of a tree.

ghost use Rattle.std.specs.Prelude.{◌≡◌, ◌≤◌, ◌+◌, ◌++◌, ◌∷◌, false, length, IfNone, IfOk, IfSome};
ghost use Rattle.std.specs.Option.{option_copied};
ghost use Rattle.octets.specs.Causes.{HasCause};
ghost use Rattle.text_reader.specs.Line.{has_byte};
ghost use Rattle.git_object.specs.Names.{components};
ghost use Rattle.keeper_api.specs.Faults.{keeper_failed};
ghost use Rattle.keeper_api.specs.Undisturbed.{Undisturbed};
ghost use Rattle.tree_paths.specs.Lookups.{entry_at, entry_named, value_named};
ghost use Rattle.tree_paths.specs.Readings.{Readings, Told};

use crate::counts::is_dir;
use crate::object_reads::load_tree;
use git_object::{Mode, ObjectId, TreeEntry};
use keeper_api::{Keeper, KeeperFault};
use std::alloc::Global;

/// What stands before the first slash and what stands after it, or None where there is none.
pub fn split_at_slash(text: &[u8]) -> Option<(&[u8], &[u8])>
    ensures found { IfSome result (λ parts. text.now ≡ parts.0.now ++ 47 ∷ parts.1.now) }
    ensures first { IfSome result (λ parts. has_byte 47 parts.0.now ≡ false) }
    ensures none { IfNone result (has_byte 47 text.now ≡ false) }
{
    'bytes: for i in 0..text.len() {
        if text[i] == b'/' {
            let (name, more) = text.split_at(i);
            let (_, rest) = more.split_at(1);
            return Some((name, rest));
        }
    }
    None
}

/// The entry of a name, or None where there is none.
pub fn entry_named<'a>(entries: &'a [TreeEntry], name: &[u8]) -> Option<&'a TreeEntry>
    ensures { option_copied result ≡ entry_named name.now entries.now }
{
    entries.iter().find(|entry| entry.name.as_slice() == name)
}

/// The mode and the id under a name in the tree at an id, or None where there is no such tree or no such entry.
pub fn load_entry<R: Keeper>(
    alloc: Global,
    keeper: &mut R,
    tree: &ObjectId,
    name: &[u8],
) -> Result<Option<(Mode, ObjectId)>, KeeperFault>
    ensures found { IfOk result (λ found. (readings : Readings) → Told (R.content keeper.new) readings
        → found ≡ value_named readings.trees tree.now name.now) }
    ensures same { Undisturbed R.Keeper keeper.old keeper.new }
    ensures cause { HasCause keeper_failed (R.faults keeper.old) (R.faults keeper.new) result }
    ensures reads { R.reads keeper.new ≤ R.reads keeper.old + 1 }
{
    let Some(entries) = load_tree(alloc, keeper, tree)? else {
        return Ok(None);
    };
    match entry_named(entries.as_slice(), name) {
        Some(entry) => Ok(Some((entry.mode, entry.id))),
        None => Ok(None),
    }
}

/// The mode and the id at a path of the tree at an id: directories of all names but the last lead to the entry of the
/// last name. None where something on the way is no tree, has no such entry, or is no directory. It reads one tree for
/// each name at most.
pub fn load_at<R: Keeper>(
    alloc: Global,
    keeper: &mut R,
    tree: &ObjectId,
    path: &[u8],
) -> Result<Option<(Mode, ObjectId)>, KeeperFault>
    ensures found { IfOk result (λ found. (readings : Readings) → Told (R.content keeper.new) readings
        → found ≡ entry_at readings.trees (components path.now) tree.now) }
    ensures same { Undisturbed R.Keeper keeper.old keeper.new }
    ensures cause { HasCause keeper_failed (R.faults keeper.old) (R.faults keeper.new) result }
    ensures reads { R.reads keeper.new ≤ R.reads keeper.old + length (components path.now) }
{
    let Some((name, rest)) = split_at_slash(path) else {
        let found = load_entry(alloc, keeper, tree, path)?;
        return Ok(found);
    };
    let Some(entry) = load_entry(alloc, keeper, tree, name)? else {
        return Ok(None);
    };
    if !is_dir(entry.0) {
        return Ok(None);
    }
    let found = load_at(alloc, keeper, &entry.1, rest)?;
    Ok(found)
}
