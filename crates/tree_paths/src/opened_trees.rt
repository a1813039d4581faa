//! Trees that are opened by what is known, or are read.

ghost use Rattle.std.specs.Prelude.{◌≡◌, ◌≤◌, ◌+◌, length, true, Some, IfOk, IfSome};
ghost use Rattle.std.specs.Option.{option_map};
ghost use Rattle.octets.specs.Causes.{HasCause};
ghost use Rattle.git_object.specs.Repository.{Repository};
ghost use Rattle.git_object.specs.Trees.{AreWellFormed};
ghost use Rattle.keeper_api.specs.Faults.{keeper_failed};
ghost use Rattle.keeper_api.specs.Undisturbed.{Undisturbed};
ghost use Rattle.tree_paths.specs.Known.{AreKnownIn};
ghost use Rattle.tree_paths.specs.Opening.{entries_in};
ghost use Rattle.tree_paths.specs.Readings.{Readings, Told};
ghost use Rattle.tree_paths.specs.Walks.{opened};

use crate::known_trees::KnownTrees;
use crate::object_reads::open_tree;
use crate::read_trees::ReadTree;
use git_object::{ObjectId, TreeEntry};
use keeper_api::{Keeper, KeeperFault};
use std::alloc::Global;

/// A tree that what is known lends, or that was read.
#[derive(Drop)]
pub enum Opened<'k> {
    Lent(&'k ReadTree),
    Read(ReadTree),
}

impl<'k> Opened<'k> {
    /// The entries, lent.
    pub fn as_slice(&self) -> &[TreeEntry]
        ensures { result.now ≡ entries_in self.now }
    {
        match self {
            Opened::Lent(tree) => tree.as_slice(),
            Opened::Read(tree) => tree.as_slice(),
        }
    }
}

// A tree that is known, as `open_tree` opens it.
fn open_lent(tree: &ReadTree, left: u32, is_root: bool) -> Option<Opened<'_>>
    ensures read { option_map entries_in result ≡ opened left is_root (Some tree.now) }
    ensures formed { IfSome result (λ tree. AreWellFormed (entries_in tree)) }
    ensures some { IfSome result (λ tree. length (entries_in tree) ≡ 0 → is_root ≡ true) }
    ensures level { IfSome result (λ tree. 1 ≤ left) }
{
    let entries = tree.as_slice();
    if left == 0 {
        return None;
    }
    if !is_root && entries.is_empty() {
        return None;
    }
    Some(Opened::Lent(tree))
}

/// The entries of a tree that may be visited, as `open_tree` opens it. A tree whose entries are known is not read.
pub fn open_known<'k, R: Keeper>(
    alloc: Global,
    keeper: &mut R,
    known: &'k KnownTrees,
    id: &ObjectId,
    left: u32,
    is_root: bool,
) -> Result<Option<Opened<'k>>, KeeperFault>
    requires known { (r : Repository) → R.content keeper.old ≡ Some r → AreKnownIn r known.now }
    ensures read { IfOk result (λ found. (readings : Readings) → Told (R.content keeper.new) readings
        → option_map entries_in found ≡ opened left is_root (readings.trees id.now)) }
    ensures formed { IfOk result (λ found. IfSome found (λ tree. AreWellFormed (entries_in tree))) }
    ensures some { IfOk result (λ found. IfSome found (λ tree. length (entries_in tree) ≡ 0 → is_root ≡ true)) }
    ensures level { IfOk result (λ found. IfSome found (λ tree. 1 ≤ left)) }
    ensures same { Undisturbed R.Keeper keeper.old keeper.new }
    ensures cause { HasCause keeper_failed (R.faults keeper.old) (R.faults keeper.new) result }
    ensures reads { R.reads keeper.new ≤ R.reads keeper.old + 1 }
{
    if let Some(tree) = known.tree_at(id) {
        return Ok(open_lent(tree, left, is_root));
    }
    match open_tree(alloc, keeper, id, left, is_root)? {
        Some(entries) => Ok(Some(Opened::Read(ReadTree::new(entries)))),
        None => Ok(None),
    }
}
