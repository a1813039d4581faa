//! Laws over the trees that keep objects.

ghost use Rattle.std.specs.Prelude.{◌≡◌, [], ℕ, List};
ghost use Rattle.std.specs.List.{AllByRecursion};
ghost use Rattle.git_object.specs.Objects.{Pair, pair_id};
ghost use Rattle.git_object.specs.Repository.{HasObject, Repository};
ghost use Rattle.tree_paths.specs.Readings.{AreReadings, Readings, Trees};
ghost use Rattle.tree_paths.specs.States.{path_values};
ghost use Rattle.tree_paths.specs.Walks.{steps};
ghost use Rattle.object_making.specs.Keeping.{Keeps};
ghost use Rattle.object_making.specs.Matching.{AreFormed};
ghost use Rattle.object_making.specs.Listings.{values};
ghost use Rattle.object_making.specs.TreePaths.{IsListing};
ghost use Rattle.object_making.specs.declared.listed.Listed.{Listed};

/// The trees of a repository that has each of some objects under its own id keep them.
pub fn kept()
    ensures { (r : Repository) (readings : Readings) → AreReadings r readings → (pairs : List Pair)
        → AllByRecursion (λ pair. HasObject r (pair_id pair) pair) pairs → Keeps readings.trees pairs }
{}

/// The entries of a repository's trees are as Git has them.
pub fn formed()
    ensures { (r : Repository) (readings : Readings) → AreReadings r readings → AreFormed readings.trees }
{}

/// Where trees have a listing, its paths rise strictly by bytes, each has one to 32 names that entries may have and no
/// directory's mode, and none stands in a directory that has the path of another. Any other listing is no tree's.
pub fn listings()
    ensures { (trees : Trees) (root : List ℕ) (listing : List Listed) → AreFormed trees
        → path_values (steps trees 32 [] root) ≡ values listing → IsListing listing }
{}
