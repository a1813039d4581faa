//! Laws over trees with one entry put in its place.

ghost use Rattle.std.specs.Prelude.{List};
ghost use Rattle.git_object.specs.Trees.{AreWellFormed, IsEntryName};
ghost use Rattle.git_object.specs.declared.trees.TreeEntry.{TreeEntry};
ghost use Rattle.tree_paths.specs.Lookups.{entry_named};
ghost use Rattle.object_making.specs.Editing.{IsPut, put_entry};
ghost use Rattle.object_making.specs.Named.{IsAlike};

/// An entry that is well named is put in Git's order among the entries of a tree, and has its name there; under every
/// other name stands what stood there. What had its name before, if anything, is a directory exactly where it is one.
pub fn entries_put()
    ensures { (entry : TreeEntry) (entries : List TreeEntry) → IsEntryName entry.name → AreWellFormed entries
        → IsAlike entry.mode (entry_named entry.name entries)
        → IsPut entries entry (put_entry entry entries) }
{}
