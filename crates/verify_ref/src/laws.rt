//! What holds of the definitions. No call needs these functions: their contracts are the laws.

ghost use Rattle.std.specs.Prelude.{◌≡◌, ◌≤◌, ◌+◌, ◌*◌, ℕ, List, Option, true};
ghost use Rattle.git_object.specs.Repository.{Repository};
ghost use Rattle.rsl_chain.specs.Entries.{Taken};
ghost use Rattle.rsl_chain.specs.declared.entries.EntryBody.TheVariants.{Reference};
ghost use Rattle.judging.specs.Reads.{is_bounded};
ghost use Rattle.judging.specs.declared.verdicts.Verdict.{Verdict};
ghost use Rattle.rsl_chain.specs.Logs.{IsBreakOf};
ghost use Rattle.entry_rules.specs.declared.faults.Fault.{Fault};
ghost use Rattle.entry_rules.specs.RealRules.{real_rules};
ghost use Rattle.verify_ref.specs.Reading.{both_dirs, extending_reads, policy_files_of};
ghost use Rattle.verify_ref.specs.Verdicts.{IsVerdict};

/// A repository has one verdict on a reference at most, and none where its log breaks.
pub fn one_verdict()
    ensures one { (r : Repository) (name : List ℕ) (anchor : Option (List (List ℕ))) (a b : Verdict Fault)
        → IsVerdict r name anchor a → IsVerdict r name anchor b → a ≡ b }
    ensures or_break { (r : Repository) (name : List ℕ) (anchor : Option (List (List ℕ))) (verdict : Verdict Fault)
        (id : List ℕ) → IsVerdict r name anchor verdict → IsBreakOf r id → ⊥ }
{}

/// Where neither where its reference stood nor its target is broken, an entry is worth at most 64 reads, two for each
/// tree of the two, and one for each rule file below the top one of a policy.
pub fn few_reads()
    ensures { (anchor : Option (List (List ℕ))) (log : List Taken) (t : Taken) (name target : List ℕ)
        → t.entry.body ≡ Reference name target → is_bounded (real_rules anchor) log t ≡ true
        → extending_reads (real_rules anchor) log t ≤ 64 + 2 * both_dirs (real_rules anchor) log t name target
        + policy_files_of t.repository name target }
{}
