//! The entries of a tree that was read.

ghost use Rattle.std.specs.Prelude.{◌≡◌};
ghost use Rattle.git_object.specs.Trees.{AreWellFormed};

use git_object::{TreeEntries, TreeEntry};
use std::marker::Model;

/// The entries of a tree, as trees have them.
#[derive(Drop)]
pub struct ReadTree {
    entries: TreeEntries,
}

impl Model for ReadTree {
    ghost use Rattle.std.specs.Prelude.{List};
    ghost use Rattle.git_object.specs.Trees.{AreWellFormed};
    ghost use Rattle.git_object.specs.declared.trees.TreeEntry.{TreeEntry};

    ghost Value = { List TreeEntry };

    ghost view = { λ t. t.entries };

    ghost invariant = { λ t. AreWellFormed t.entries };
}

impl ReadTree {
    /// The tree of entries as a tree has them.
    pub fn new(entries: TreeEntries) -> ReadTree
        requires { AreWellFormed entries }
        ensures { result ≡ entries }
    {
        ReadTree { entries }
    }

    /// The entries, lent.
    pub fn as_slice(&self) -> &[TreeEntry]
        ensures entries { result.now ≡ self.now }
        ensures formed { AreWellFormed self.now }
    {
        self.entries.as_slice()
    }
}
