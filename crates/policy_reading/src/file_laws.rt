//! What the definitions say.

ghost use Rattle.std.specs.Prelude.{◌≡◌, List, map};
ghost use Rattle.git_object.specs.Repository.{Repository};
ghost use Rattle.git_object.specs.declared.trees.TreeEntry.{TreeEntry};
ghost use Rattle.tree_paths.specs.Readings.{AreReadings, Readings};
ghost use Rattle.policy_reading.specs.Metadata.{rule_files};
ghost use Rattle.policy_reading.specs.Orders.{AreInOrder};
ghost use Rattle.tree_paths.specs.Repositories.{readings_of};

/// A repository has no other readings than those by which policies are defined.
pub fn readings()
    ensures { (r : Repository) (readings : Readings) → AreReadings r readings → readings ≡ readings_of r }
{}

/// The rule files of a directory stand in their order: the top file first, where it is there, and then the others by
/// the bytes of their stems, of which no two are equal.
pub fn order()
    ensures { (entries : List TreeEntry) → AreInOrder (map (λ at. at.stem) (rule_files entries)) }
{}
