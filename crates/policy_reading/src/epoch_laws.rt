//! What the definition says, as a reader would say it. No call needs these functions: their contracts are the laws.

ghost use Rattle.std.specs.Prelude.{◌≡◌, ◌↔◌, ◌+◌, ◌++◌, ◌∷◌, [], ℕ, List, length, None, Option, true};
ghost use Rattle.std.specs.List.{Contains, fold};
ghost use Rattle.git_object.specs.Repository.{Repository};
ghost use Rattle.rsl_chain.specs.Entries.{is_of, target_of};
ghost use Rattle.git_object.specs.References.{policy_name};
ghost use Rattle.rsl_chain.specs.declared.entries.Entry.{Entry};
ghost use Rattle.policy_epochs.specs.Epochs.{AreEpochs, policy_in};
ghost use Rattle.policy_epochs.specs.Succession.{succession};
ghost use Rattle.policy_reading.specs.InForce.{epoch_fault, found_of, in_force, next_in};

/// The policy in force after the entries of a log is that of the last of its epochs.
pub fn policy_of_the_last_epoch()
    ensures { (anchor : Option (List (List ℕ))) (r : Repository) (entries : List Entry) (list : List ℕ)
        → AreEpochs (found_of r entries) (succession anchor) (length entries) list
        → in_force anchor r entries ≡ policy_in (found_of r entries) list }
{}

/// It is what going through the entries in turn leaves, where each that is for the policy and may follow takes effect.
pub fn entry_by_entry()
    ensures { (anchor : Option (List (List ℕ))) (r : Repository) (entries : List Entry)
        → in_force anchor r entries ≡ fold (next_in anchor r) None entries }
{}

/// One more entry for the policy behind those of a log is one of the epochs of the longer log exactly where nothing
/// keeps it from being one behind them.
pub fn one_more_epoch()
    ensures { (anchor : Option (List (List ℕ))) (r : Repository) (entries : List Entry) (entry : Entry) (list : List ℕ)
        → is_of entry.body policy_name ≡ true → AreEpochs (found_of r (entries ++ entry ∷ [])) (succession anchor)
        (length entries + 1) list
        → Contains list (length entries + 1) ↔ (epoch_fault anchor r entries (target_of entry.body) ≡ None) }
{}
