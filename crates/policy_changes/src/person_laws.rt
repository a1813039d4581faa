//! Laws over the definitions of this crate. No call needs these functions: their contracts are the laws.

ghost use Rattle.policy_changes.specs.PersonLaws.{NamedWhere};

/// A name is told exactly where a person of this name, of the policy's root or of one of its rule files, has one of the
/// keys; no two that are told are alike; with more names behind, those that are there stay where they are; and where
/// there are no keys none is told.
pub fn named_where()
    ensures { NamedWhere }
{}
