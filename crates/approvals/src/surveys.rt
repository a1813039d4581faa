//! The directories on the way to a file, as they are read of old trees.

ghost use Rattle.std.specs.Prelude.{◌≡◌, ◌≤◌, ◌+◌, ℕ, List, length, Err, IfOk, IfNone, IfSome};
ghost use Rattle.octets.specs.Causes.{HasCause};
ghost use Rattle.git_object.specs.Names.{components};
ghost use Rattle.git_object.specs.Trees.{AreWellFormed};
ghost use Rattle.keeper_api.specs.Faults.{keeper_failed};
ghost use Rattle.keeper_api.specs.Undisturbed.{Undisturbed};
ghost use Rattle.tree_paths.specs.Readings.{Readings, Told};
ghost use Rattle.approvals.specs.Files.{old_entries, put_file};
ghost use Rattle.approvals.specs.Levels.{HasLevels};

use crate::putting::dir_named;
use git_object::{ObjectId, TreeEntries};
use keeper_api::{Keeper, KeeperFault};
use octets::Items;
use std::alloc::Global;
use tree_paths::{load_tree, split_at_slash};

/// A directory on the way to a file: the id of its old tree, if there is one yet, and the entries of that.
#[derive(Drop)]
pub struct Level {
    pub old: Option<ObjectId>,
    pub entries: TreeEntries,
}

/// The directories on the way, the first first.
pub type Levels = Items<Level>;

// The entries of an old tree, none where there is no tree yet; or the object that is no tree.
fn load_old<R: Keeper>(
    alloc: Global,
    keeper: &mut R,
    old: &Option<ObjectId>,
) -> Result<Result<TreeEntries, ObjectId>, KeeperFault>
    ensures found { IfOk result (λ found. (readings : Readings) → Told (R.content keeper.new) readings
        → found ≡ old_entries readings.trees old.now) }
    ensures formed { IfOk result (λ found. IfOk found AreWellFormed) }
    ensures same { Undisturbed R.Keeper keeper.old keeper.new }
    ensures cause { HasCause keeper_failed (R.faults keeper.old) (R.faults keeper.new) result }
    ensures reads { R.reads keeper.new ≤ R.reads keeper.old + 1 }
{
    let Some(id) = old else {
        return Ok(Ok(TreeEntries::new(alloc)));
    };
    match load_tree(alloc, keeper, id)? {
        Some(entries) => Ok(Ok(entries)),
        None => Ok(Err(*id)),
    }
}

/// Reads the directories on the way to a file from an old tree, and adds them to the levels; or answers the first
/// object on the way that is no tree or no directory. It reads at most one tree for each name of the path, and is as
/// many calls deep as the path has names.
pub fn survey<R: Keeper>(
    alloc: Global,
    keeper: &mut R,
    path: &[u8],
    old: &Option<ObjectId>,
    levels: &mut Levels,
) -> Result<Option<ObjectId>, KeeperFault>
    requires few { length (components path.now) ≤ 18 }
    ensures found { IfOk result (λ in_way. IfNone in_way
        (HasLevels (R.content keeper.new) (components path.now) old.now levels.old levels.new)) }
    ensures in_way { IfOk result (λ in_way. IfSome in_way (λ id. (readings : Readings)
        → Told (R.content keeper.new) readings
        → (blob : List ℕ) → put_file readings.trees blob (components path.now) old.now ≡ Err id)) }
    ensures same { Undisturbed R.Keeper keeper.old keeper.new }
    ensures cause { HasCause keeper_failed (R.faults keeper.old) (R.faults keeper.new) result }
    ensures reads { R.reads keeper.new ≤ R.reads keeper.old + length (components path.now) }
{
    let entries = match load_old(alloc, keeper, old)? {
        Ok(entries) => entries,
        Err(id) => return Ok(Some(id)),
    };
    let Some((name, rest)) = split_at_slash(path) else {
        levels.push(Level { old: *old, entries })?;
        return Ok(None);
    };
    let dir = match dir_named(entries.as_slice(), name) {
        Ok(dir) => dir,
        Err(id) => return Ok(Some(id)),
    };
    levels.push(Level { old: *old, entries })?;
    let in_way = survey(alloc, keeper, rest, &dir, levels)?;
    Ok(in_way)
}
