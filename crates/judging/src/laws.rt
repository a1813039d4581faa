//! What the definitions of judging say, as a reader would say it. No call needs these functions: their contracts
//! are the laws, over any policies `P`, any faults `F` and any rules over them.

ghost use Rattle.std.specs.Prelude.{◌≡◌, ◌⊎◌, ◌↔◌, ◌<◌, ◌≤◌, ◌++◌, ℕ, List, length, true, Some, None};
ghost use Rattle.rsl_chain.specs.Entries.{Taken};
ghost use Rattle.git_object.specs.References.{policy_name};
ghost use Rattle.recovery.specs.Lanes.{first_of};
ghost use Rattle.judging.specs.Rules.{Rules};
ghost use Rattle.judging.specs.Logs.{entry_at, fault_at, is_entry_of, lane, policy_after, prior, rescued, skipped};
ghost use Rattle.judging.specs.Readings.{HasFault, IsInForce, IsPrior, IsRescue, IsSkip, IsViolation, OpensNone, Stays};

/// An entry is skipped exactly where some later annotation skips it.
pub fn skipped_where<P, F>()
    ensures { (rules : Rules P F) (log : List Taken) (i : ℕ)
        → (skipped rules log i ≡ true) ↔ ((a : ℕ) × IsSkip rules log i a) }
{}

/// An entry is rescued exactly where some later entry completes a recovery that takes it in.
pub fn rescued_where<P, F>()
    ensures { (rules : Rules P F) (log : List Taken) (b : ℕ)
        → (rescued rules log b ≡ true) ↔ ((f : ℕ) × IsRescue rules log b f) }
{}

/// The prior of a reference is its last entry that is not skipped; where there is none, each is skipped.
pub fn prior_greatest<P, F>()
    ensures some { (rules : Rules P F) (log : List Taken) (name : List ℕ) (i : ℕ) → prior rules log name ≡ Some i
        → IsPrior rules log name i }
    ensures none { (rules : Rules P F) (log : List Taken) (name : List ℕ) → prior rules log name ≡ None
        → (j : ℕ) → 0 < j → j ≤ length log → is_entry_of (entry_at log j) name ≡ true → skipped rules log j ≡ true }
{}

/// The policy in force is the one that an entry of the policy's reference opened, of which no later one opened
/// another; where there is none, no entry opened any.
pub fn policy_in_force<P, F>()
    ensures some { (rules : Rules P F) (log : List Taken) (policy : P) → policy_after rules log ≡ Some policy → (k : ℕ)
        × IsInForce rules log policy k }
    ensures none { (rules : Rules P F) (log : List Taken) → policy_after rules log ≡ None
        → (j : ℕ) (t : Taken) → 0 < j → j ≤ length log → entry_at log j ≡ Some t
        → is_entry_of (entry_at log j) policy_name ≡ true → OpensNone rules log j t }
{}

/// The fault of an entry is the one that its rule gives, under the policy in force, from its prior's target.
pub fn fault_where<P, F>()
    ensures { (rules : Rules P F) (log : List Taken) (i : ℕ) (t : Taken) → entry_at log i ≡ Some t
        → HasFault rules log i t }
{}

/// The first entry pending of a reference is its first that is neither authorised nor rescued; where none is
/// pending, each is authorised or rescued.
pub fn violation_least<P, F>()
    ensures some { (rules : Rules P F) (log : List Taken) (name : List ℕ) (i : ℕ) (fault : F)
        → first_of (lane rules log name).pending ≡ Some i → fault_at rules log i ≡ Some fault
        → IsViolation rules log name i fault }
    ensures none { (rules : Rules P F) (log : List Taken) (name : List ℕ) → first_of (lane rules log name).pending
        ≡ None
        → (j : ℕ) → 0 < j → j ≤ length log → is_entry_of (entry_at log j) name ≡ true → (fault_at rules log j ≡ None)
        ⊎ (rescued rules log j ≡ true) }
{}

/// With more entries at the end the fault of each earlier entry is the same, and none that was authorised or
/// rescued ceases to be so.
pub fn append_keeps<P, F>()
    ensures { (rules : Rules P F) (log more : List Taken) (i : ℕ) → 0 < i → i ≤ length log → Stays rules log more i }
{}
