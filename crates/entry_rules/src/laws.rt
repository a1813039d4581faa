//! The definitions, read aloud. No call needs these functions: their contracts are the laws.

ghost use Rattle.std.specs.Prelude.{◌≡◌, ◌↔◌, ◌⊎◌, ℕ, List, Option, Some, None, true};
ghost use Rattle.std.specs.List.{Contains};
ghost use Rattle.git_object.specs.Repository.{Repository};
ghost use Rattle.keeper_api.specs.Growing.{Larger};
ghost use Rattle.rsl_chain.specs.declared.entries.Entry.{Entry};
ghost use Rattle.rsl_chain.specs.declared.entries.EntryBody.TheVariants.{Reference};
ghost use Rattle.rule_files.specs.declared.rules.RuleFile.{RuleFile};
ghost use Rattle.rule_delegations.specs.Forests.{IsPolicy};
ghost use Rattle.rule_delegations.specs.Reached.{MayAct, Meets, Name};
ghost use Rattle.policy_epochs.specs.declared.policies.Policy.{Policy};
ghost use Rattle.tree_paths.specs.States.{Ended};
ghost use Rattle.entry_rules.specs.Learning.{AreKnownIn};
ghost use Rattle.entry_rules.specs.declared.learned.Learned.{Learned};
ghost use Rattle.entry_rules.specs.declared.faults.Fault.{Fault};
ghost use Rattle.entry_rules.specs.Changing.{least_unmet};
ghost use Rattle.entry_rules.specs.Faults.{entry_fault, entry_signers};
ghost use Rattle.entry_rules.specs.Meeting.{git_name, may_act, meets};
ghost use Rattle.entry_rules.specs.Readings.{IsLawful, IsLeast, IsTold, SignsApproval, SignsEntry};

/// In the rule files of a policy a name is met exactly where no chain of rules is reached for it, or where some reached
/// chain's last rule has at least its threshold of persons with a key among the signers.
pub fn met_where()
    ensures { (files : List RuleFile) (name : Name) (signers : List (List ℕ)) → IsPolicy files
        → Meets files name signers ↔ (meets files name signers ≡ true) }
{}

/// A key may skip entries of a reference exactly where no chain of rules is reached for it, or where some reached
/// chain's last rule has a person with the key.
pub fn acts_where()
    ensures { (files : List RuleFile) (name key : List ℕ) → IsPolicy files
        → MayAct files (git_name name) key ↔ (may_act files (git_name name) key ≡ true) }
{}

/// The path that a fault names is the least, in the order of bytes, of those at which the two states differ and which
/// the signers do not meet.
pub fn least_where()
    ensures { (files : List RuleFile) (signers : List (List ℕ)) (s t : Ended) → IsPolicy files
        → IsLeast files signers s t (least_unmet files signers s t) }
{}

/// A key's id is among the signers of an entry of a reference exactly where the entry names it, a key of the policy has
/// it and the signature is good by that key over what is signed, or where an approval of the change is found among the
/// attestations and a key of this id signed it.
pub fn signed_where()
    ensures { (r : Repository) (policy : Policy) (entry : Entry) (from : List ℕ) (attested : Option (List ℕ))
        (name target id : List ℕ)
        → entry.body ≡ Reference name target
        → Contains (entry_signers r policy entry from attested) id
        ↔ (SignsEntry policy.keys entry id ⊎ SignsApproval r policy.keys name from target attested id) }
{}

/// An entry of a reference has no fault under a policy exactly where neither the state before nor the one that it takes
/// is broken, its signers meet the reference, and they meet each path at which the maps of the two states differ.
pub fn lawful_where()
    ensures { (r : Repository) (policy : Policy) (entry : Entry) (from : List ℕ) (attested : Option (List ℕ))
        (name target : List ℕ)
        → IsPolicy policy.rules → entry.body ≡ Reference name target
        → (entry_fault r policy entry from attested ≡ None) ↔ IsLawful r policy.rules
        (entry_signers r policy entry from attested) name from target }
{}

/// The fault that an entry of a reference has is a broken state, the one before first; else the reference, where its
/// signers do not meet it; else the least path, in the order of bytes, at which the two states differ and which they do
/// not meet. Told is the rule that the name reaches first, in pre-order, how many of its persons signed, and its
/// threshold.
pub fn told_where()
    ensures { (r : Repository) (policy : Policy) (entry : Entry) (from : List ℕ) (attested : Option (List ℕ))
        (name target : List ℕ) (fault : Fault)
        → IsPolicy policy.rules → entry.body ≡ Reference name target
        → (entry_fault r policy entry from attested ≡ Some fault)
        ↔ IsTold r policy.rules (entry_signers r policy entry from attested) name from target fault }
{}

/// What was learned of a repository is so in a larger one.
pub fn learned_stays()
    ensures { (small large : Repository) (learned : Learned) → Larger small large → AreKnownIn small learned
        → AreKnownIn large learned }
{}
