//! A law over what is made of a listing. No call needs this function: its contract is the law.

ghost use Rattle.std.specs.Prelude.{◌≡◌, [], List, map};
ghost use Rattle.std.specs.List.{AllByRecursion};
ghost use Rattle.git_object.specs.Objects.{pair_id};
ghost use Rattle.git_object.specs.Repository.{HasObject, Repository};
ghost use Rattle.tree_paths.specs.Readings.{AreReadings, Readings};
ghost use Rattle.tree_paths.specs.States.{path_values};
ghost use Rattle.tree_paths.specs.Walks.{steps};
ghost use Rattle.object_making.specs.Listings.{values};
ghost use Rattle.object_making.specs.Made.{AreOpen};
ghost use Rattle.object_making.specs.Reading.{listed_of};
ghost use Rattle.object_making.specs.Rows.{Row};
ghost use Rattle.commands_snapshot.specs.Making.{IsMade};
ghost use Rattle.commands_snapshot.specs.declared.making.Made.{Made};

use object_making::laws::kept;

/// In a repository that has each of the objects that were made of a listing under its own id, a walk of their root
/// meets exactly the listing's paths with their modes and blobs, in its order, and each tree on it may be visited.
pub fn listings_kept()
    ensures { (r : Repository) (readings : Readings) → AreReadings r readings → (rows : List Row) (made : Made)
        → IsMade rows made
        → AllByRecursion (λ pair. HasObject r (pair_id pair) pair) made.objects
        → (path_values (steps readings.trees 32 [] made.root) ≡ values (map listed_of rows))
        × AreOpen readings.trees (steps readings.trees 32 [] made.root) }
{
    kept();
}
