//! Laws over the readings of repositories and the walks of their trees.

ghost use Rattle.std.specs.Prelude.{◌≡◌, ◌↔◌, ◌⊎◌, ℕ, List, true};
ghost use Rattle.git_object.specs.Repository.{Repository};
ghost use Rattle.keeper_api.specs.Growing.{Larger};
ghost use Rattle.tree_paths.specs.Broken.{IsBrokenAt, IsUnbroken};
ghost use Rattle.tree_paths.specs.Changes.{IsComparison};
ghost use Rattle.tree_paths.specs.Growing.{MoreReadings};
ghost use Rattle.tree_paths.specs.Known.{AreKnownIn};
ghost use Rattle.tree_paths.specs.Leading.{IsMapOfTrees};
ghost use Rattle.tree_paths.specs.Readings.{AreReadings, Readings};
ghost use Rattle.tree_paths.specs.Repositories.{readings_of};
ghost use Rattle.tree_paths.specs.States.{is_sound, state_at, walk_of};
ghost use Rattle.tree_paths.specs.declared.known_trees.KnownTrees.{KnownTrees};
ghost use Rattle.tree_paths.specs.declared.states.Comparison.TheVariants as comparison;
ghost use Rattle.tree_paths.specs.declared.states.State.TheVariants as state;

/// Each repository has its readings, so that what is said of a target for the readings of a repository is said of each.
pub fn readings()
    ensures { (r : Repository) → (readings : Readings) × AreReadings r readings }
{}

/// What the definitions call the readings of a repository are its readings.
pub fn read()
    ensures { (r : Repository) → AreReadings r (readings_of r) }
{}

/// Where the walk of a tree counts, its map has at a path exactly the mode and the id to which trees lead by the path's
/// names.
pub fn paths()
    ensures { (r : Repository) (readings : Readings) → AreReadings r readings → (root : List ℕ)
        → IsMapOfTrees readings.trees root }
{}

/// A target is broken at an object exactly where tags lead to that object and it is no commit where one must stand, or
/// where they lead to a commit and the first bad step of the walk of its tree names the object: a tree that is missing,
/// too deep or empty below the root, or the tree that holds a path past a limit. A comparison names the first bad
/// object of the first target that has one.
pub fn broken_where()
    ensures state { (readings : Readings) (target id : List ℕ)
        → (state_at (walk_of readings target) ≡ state.Broken id) ↔ IsBrokenAt readings target id }
    ensures unbroken { (readings : Readings) (target : List ℕ)
        → (is_sound (walk_of readings target) ≡ true) ↔ IsUnbroken readings target }
    ensures compared { (readings : Readings) (from to id : List ℕ)
        → IsComparison (walk_of readings from) (walk_of readings to) (comparison.Broken id)
        ↔ (IsBrokenAt readings from id ⊎ (IsUnbroken readings from × IsBrokenAt readings to id)) }
{}

/// What an id is read as in a repository it is read as in a larger one.
pub fn more_readings()
    ensures { (small large : Repository) → Larger small large → MoreReadings (readings_of small) (readings_of large) }
{}

/// A target whose state is not broken has the same walk, and so the same state, in a larger repository.
pub fn whole_stays()
    ensures { (small large : Repository) (target : List ℕ) → Larger small large
        → is_sound (walk_of (readings_of small) target) ≡ true
        → walk_of (readings_of large) target ≡ walk_of (readings_of small) target }
{}

/// What is known of the trees of a repository is so in a larger one.
pub fn known_stays()
    ensures { (small large : Repository) (known : KnownTrees) → Larger small large → AreKnownIn small known
        → AreKnownIn large known }
{}
