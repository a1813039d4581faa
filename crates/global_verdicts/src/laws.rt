//! What holds of the definitions. No call needs these functions: their contracts are the laws.

ghost use Rattle.std.specs.Prelude.{◌≡◌, ℕ, List, Option};
ghost use Rattle.git_object.specs.Repository.{Repository};
ghost use Rattle.rsl_chain.specs.Logs.{IsBreakOf};
ghost use Rattle.global_verdicts.specs.Verdicts.{IsGlobal};
ghost use Rattle.global_verdicts.specs.declared.verdicts.GlobalVerdict.{GlobalVerdict};

/// A repository has one verdict by global rules on a reference at most, and none where its log breaks.
pub fn one_global()
    ensures one { (r : Repository) (name : List ℕ) (anchor : Option (List (List ℕ))) (a b : GlobalVerdict)
        → IsGlobal r name anchor a → IsGlobal r name anchor b → a ≡ b }
    ensures or_break { (r : Repository) (name : List ℕ) (anchor : Option (List (List ℕ))) (verdict : GlobalVerdict)
        (id : List ℕ) → IsGlobal r name anchor verdict → IsBreakOf r id → ⊥ }
{}
