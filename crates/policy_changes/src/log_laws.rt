//! Laws over the definitions of this crate. No call needs these functions: their contracts are the laws.

ghost use Rattle.std.specs.Prelude.{List};
ghost use Rattle.rsl_chain.specs.Entries.{Taken};
ghost use Rattle.policy_changes.specs.LogLaws.{AreNames};

/// A name is there exactly where some entry records a target of it, no two are alike, and with more entries at the end
/// those that are there stay where they are.
pub fn each_once()
    ensures { (log : List Taken) → AreNames log }
{}
