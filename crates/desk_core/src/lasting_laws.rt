//! The rules of entries last. No call needs these functions: their contracts are the laws.

ghost use Rattle.std.specs.Prelude.{◌≡◌, ◌++◌, ℕ, List, Option, Some, Ok, true};
ghost use Rattle.std.specs.List.{AllByRecursion};
ghost use Rattle.git_object.specs.Repository.{Repository};
ghost use Rattle.keeper_api.specs.Growing.{Larger};
ghost use Rattle.rsl_chain.specs.Entries.{Taken};
ghost use Rattle.dsse_envelope.specs.declared.envelope.Envelope.{Envelope};
ghost use Rattle.judging.specs.Logs.{authorised, rescued};
ghost use Rattle.policy_epochs.specs.declared.policies.Policy.{Policy};
ghost use Rattle.policy_reading.specs.Policies.{policy_of};
ghost use Rattle.approvals.specs.Lookups.{approval_at};
ghost use Rattle.entry_rules.specs.RealRules.{real_rules};
ghost use Rattle.judged_logs.specs.Changes.{ArePassed, Outcome, added, store_after};
ghost use Rattle.judged_logs.specs.Gates.{AreEpochs, HasNoViolation, all_in};
ghost use Rattle.judged_logs.specs.Growing.{AllGrow, Lasting, SameEpochs};

/// A policy that is valid in a repository is so, and the same, in a larger one.
pub fn policy_stays()
    ensures { (small large : Repository) (target : List ℕ) (policy : Policy) → Larger small large
        → policy_of small target ≡ Ok policy → policy_of large target ≡ Ok policy }
{}

/// An approval that is found in a repository is found in a larger one.
pub fn approvals_stay()
    ensures { (small large : Repository) (attestations name from tree : List ℕ) (envelope : Envelope)
        → Larger small large → approval_at small attestations name from tree ≡ Some envelope
        → approval_at large attestations name from tree ≡ Some envelope }
{}

/// By the rules of entries what is allowed in a repository is allowed in every larger one.
pub fn rules_last()
    ensures { (anchor : Option (List (List ℕ))) → Lasting (real_rules anchor) }
{}

/// An entry that is authorised is so in larger repositories with the same epochs, and one that is rescued is rescued
/// there.
pub fn more_objects()
    ensures authorised { (anchor : Option (List (List ℕ))) (log more : List Taken) (i : ℕ) → AllGrow log more
        → SameEpochs (real_rules anchor) log more → authorised (real_rules anchor) log i ≡ true
        → authorised (real_rules anchor) more i ≡ true }
    ensures rescued { (anchor : Option (List (List ℕ))) (log more : List Taken) (i : ℕ) → AllGrow log more
        → SameEpochs (real_rules anchor) log more → rescued (real_rules anchor) log i ≡ true
        → rescued (real_rules anchor) more i ≡ true }
{}

/// Where no reference has a violation in the loaded repository and every entry for the policy is an epoch, it is so
/// after every list of changes of which each adds an entry that is not refused, and replaces no object, or adds
/// nothing, in the repository as it then is.
pub fn gate_holds()
    ensures { (anchor : Option (List (List ℕ))) (loaded : List Taken) (r : Repository) (outcomes : List Outcome)
        → AllByRecursion (λ t. t.repository ≡ r) loaded → HasNoViolation (real_rules anchor) loaded
        → AreEpochs (real_rules anchor) loaded → ArePassed (real_rules anchor) loaded r outcomes
        → HasNoViolation (real_rules anchor) (all_in (store_after r outcomes) (loaded ++ added r outcomes))
        × AreEpochs (real_rules anchor) (all_in (store_after r outcomes) (loaded ++ added r outcomes)) }
{}
