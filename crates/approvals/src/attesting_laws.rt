//! Laws over trees with a file put at a path.

ghost use Rattle.std.specs.Prelude.{ℕ, List, Option};
ghost use Rattle.git_object.specs.Repository.{Repository};
ghost use Rattle.tree_paths.specs.Readings.{Trees};
ghost use Rattle.approvals.specs.Finding.{AreHeld, IsAllElseKept, IsFilePut};
ghost use Rattle.approvals.specs.Tied.{IsFoundAgain, StaysElsewhere};

/// Where a file is put at the names of a path, it stands at them from the new root in all trees that have the new ones.
pub fn files_put()
    ensures { (trees : Trees) (blob : List ℕ) (names : List (List ℕ)) (old : Option (List ℕ))
        → IsFilePut trees blob names old }
{}

/// And where these trees have the old ones too, every other path has from the new root what it has from the old one: a
/// mode and an id, or nothing.
pub fn all_else_stays()
    ensures { (trees : Trees) (blob : List ℕ) (names : List (List ℕ)) (old : Option (List ℕ))
        → IsAllElseKept trees blob names old }
{}

/// What these two ask of trees holds of the trees of a repository and of those of one that has its objects too:
/// `object_making::laws::kept` says the same of the new objects.
pub fn repositories()
    ensures { (before after : Repository) → AreHeld before after }
{}

/// What is attested is found: after the change, none of whose objects clashes with one that is kept or with one
/// another, the approvers of the new commit are the signers of the envelope that was put.
pub fn approvers_found()
    ensures { (r : Repository) → IsFoundAgain r }
{}

/// And each path of the attestations but the approval's leads from the new commit to what it led to from the old
/// target.
pub fn approvals_stay()
    ensures { (r : Repository) → StaysElsewhere r }
{}
