//! That one policy is in force behind a log, whoever asks. No call needs these functions: their contracts are the laws.

ghost use Rattle.std.specs.Prelude.{◌≡◌, ◌≤◌, ◌+◌, ℕ, List, Option, length, map};
ghost use Rattle.git_object.specs.Repository.{Repository};
ghost use Rattle.rsl_chain.specs.declared.entries.Entry.{Entry};
ghost use Rattle.rsl_chain.specs.Entries.{Taken};
ghost use Rattle.judging.specs.Logs.{before, policy_after};
ghost use Rattle.policy_epochs.specs.Epochs.{below, policy_in};
ghost use Rattle.entry_rules.specs.RealRules.{real_rules};
ghost use Rattle.policy_reading.specs.InForce.{in_force};
ghost use Rattle.verify_ref.specs.OneList.{AreEpochsOf, found_each};

/// After the entries of a log, each judged in one repository, the policy under which the next one is judged is that of
/// the last of the log's epochs.
pub fn one_policy_in_force()
    ensures { (anchor : Option (List (List ℕ))) (r : Repository) (entries : List Entry)
        → policy_after (real_rules anchor) (map (λ entry. record { entry = entry; repository = r }) entries)
        ≡ in_force anchor r entries }
{}

/// Of a log whose entries are each judged in a repository of their own, one list of numbers is that of the epochs, and
/// the policy under which an entry is judged, or the next one behind the log, is that of the greatest epoch below it.
pub fn one_list_of_epochs()
    ensures one { (anchor : Option (List (List ℕ))) (log : List Taken)
        → (list : List ℕ) × (AreEpochsOf anchor log list × ((other : List ℕ) → AreEpochsOf anchor log other → other ≡ list)) }
    ensures force { (anchor : Option (List (List ℕ))) (log : List Taken) (list : List ℕ) → AreEpochsOf anchor log list
        → (i : ℕ) → 1 ≤ i → i ≤ length log + 1 → policy_after (real_rules anchor) (before log i) ≡ policy_in (found_each log) (below i list) }
{}
