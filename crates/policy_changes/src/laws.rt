//! Laws over the definitions of this crate. No call needs these functions: their contracts are the laws.

ghost use Rattle.policy_changes.specs.Laws.{ToldWhere};

/// What is told as added is what is said now and was not before, and what is told as removed the other way round, each
/// once.
pub fn told_where()
    ensures { ToldWhere }
{}
