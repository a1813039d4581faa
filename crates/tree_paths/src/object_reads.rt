//! Reads of objects that a walk meets.

ghost use Rattle.std.specs.Prelude.{◌≡◌, ◌≤◌, ◌+◌, ◌<◌, ◌==◌, length, true, Option, Some, IfOk, IfSome};
ghost use Rattle.octets.specs.Causes.{HasCause};
ghost use Rattle.git_object.specs.Trees.{AreWellFormed};
ghost use Rattle.keeper_api.specs.Faults.{keeper_failed};
ghost use Rattle.keeper_api.specs.Undisturbed.{Undisturbed};
ghost use Rattle.tree_paths.specs.Readings.{Readings, Told};
ghost use Rattle.tree_paths.specs.Walks.{opened};

use crate::heads::TargetHead;
use git_object::{Commit, Kind, ObjectFault, ObjectId, Tag, Tree, TreeEntries};
use keeper_api::{Keeper, KeeperFault, load_object};
use std::alloc::Global;

/// The entries of the tree at an id, or None where there is none. It makes at most one read.
pub fn load_tree<R: Keeper>(
    alloc: Global,
    keeper: &mut R,
    id: &ObjectId,
) -> Result<Option<TreeEntries>, KeeperFault>
    ensures read { IfOk result (λ found. (readings : Readings) → Told (R.content keeper.new) readings
        → found ≡ readings.trees id.now) }
    ensures formed { IfOk result (λ found. IfSome found AreWellFormed) }
    ensures same { Undisturbed R.Keeper keeper.old keeper.new }
    ensures cause { HasCause keeper_failed (R.faults keeper.old) (R.faults keeper.new) result }
    ensures reads { R.reads keeper.new ≤ R.reads keeper.old + 1 }
{
    let Some(object) = load_object(alloc, keeper, id)? else {
        return Ok(None);
    };
    match object.kind() {
        Kind::Tree => match Tree::read(alloc, object.body()) {
            Ok(tree) => Ok(Some(tree.entries)),
            Err(ObjectFault::Malformed { at: _ }) => Ok(None),
            Err(ObjectFault::Memory) => Err(KeeperFault::Memory),
        },
        Kind::Blob | Kind::Commit | Kind::Tag => Ok(None),
    }
}

/// What peeling finds at an id.
pub fn load_head<R: Keeper>(
    alloc: Global,
    keeper: &mut R,
    id: &ObjectId,
) -> Result<TargetHead, KeeperFault>
    ensures read { IfOk result (λ head. (readings : Readings) → Told (R.content keeper.new) readings
        → head ≡ readings.heads id.now) }
    ensures same { Undisturbed R.Keeper keeper.old keeper.new }
    ensures cause { HasCause keeper_failed (R.faults keeper.old) (R.faults keeper.new) result }
    ensures reads { R.reads keeper.new ≤ R.reads keeper.old + 1 }
{
    let Some(object) = load_object(alloc, keeper, id)? else {
        return Ok(TargetHead::Other);
    };
    match object.kind() {
        Kind::Commit => match Commit::read(alloc, object.body()) {
            Ok(commit) => Ok(TargetHead::Root(commit.tree)),
            Err(ObjectFault::Malformed { at: _ }) => Ok(TargetHead::Other),
            Err(ObjectFault::Memory) => Err(KeeperFault::Memory),
        },
        Kind::Tag => match Tag::read(alloc, object.body()) {
            Ok(tag) => Ok(TargetHead::Next(tag.object, tag.kind)),
            Err(ObjectFault::Malformed { at: _ }) => Ok(TargetHead::Other),
            Err(ObjectFault::Memory) => Err(KeeperFault::Memory),
        },
        Kind::Blob | Kind::Tree => Ok(TargetHead::Other),
    }
}

/// The entries of a tree that may be visited with so many levels left: one is left, there is a tree, and it is not
/// empty, unless it is the root.
pub fn open_tree<R: Keeper>(
    alloc: Global,
    keeper: &mut R,
    id: &ObjectId,
    left: u32,
    is_root: bool,
) -> Result<Option<TreeEntries>, KeeperFault>
    ensures read { IfOk result (λ found. (readings : Readings) → Told (R.content keeper.new) readings
        → found ≡ opened left is_root (readings.trees id.now)) }
    ensures formed { IfOk result (λ found. IfSome found AreWellFormed) }
    ensures some { IfOk result (λ found. IfSome found (λ entries. length entries ≡ 0 → is_root ≡ true)) }
    ensures level { IfOk result (λ found. IfSome found (λ entries. 1 ≤ left)) }
    ensures same { Undisturbed R.Keeper keeper.old keeper.new }
    ensures cause { HasCause keeper_failed (R.faults keeper.old) (R.faults keeper.new) result }
    ensures reads { R.reads keeper.new ≤ R.reads keeper.old + 1 }
{
    if left == 0 {
        return Ok(None);
    }
    let Some(entries) = load_tree(alloc, keeper, id)? else {
        return Ok(None);
    };
    if !is_root && entries.is_empty() {
        return Ok(None);
    }
    Ok(Some(entries))
}
