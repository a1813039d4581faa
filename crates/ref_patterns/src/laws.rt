//! The meaning of a match, by cases.

ghost use Rattle.ref_patterns.specs.Globs.{MatchesWhere};

/// A glob matches a text exactly where the relation by cases holds: nothing is left of either; a star stands for
/// nothing more or for one byte more; a question mark stands for one byte; another byte stands for itself.
pub fn matches_where()
    ensures { MatchesWhere }
{}
