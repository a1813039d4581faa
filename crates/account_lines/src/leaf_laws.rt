//! Laws over the definitions of this crate. No call needs these functions: their contracts are the laws.

ghost use Rattle.std.specs.Prelude.{ℕ, List};
ghost use Rattle.rsl_chain.specs.declared.entries.Entry.{Entry};
ghost use Rattle.account_lines.specs.LeafLaws.{IsGreatest};

/// Some entry is signed by the leaf that is told, and none by a greater one; where none is told none is signed by the
/// key.
pub fn greatest()
    ensures { (id public : List ℕ) (entries : List Entry) → IsGreatest id public entries }
{}
