//! What the definitions say.

ghost use Rattle.std.specs.Prelude.{◌≡◌, ◌↔◌, ◌+◌, ℕ, List, Ok, length};
ghost use Rattle.git_object.specs.Repository.{Repository};
ghost use Rattle.rule_delegations.specs.Assembling.{IsFirstFault};
ghost use Rattle.rule_files.specs.declared.rules.RuleFile.{RuleFile};
ghost use Rattle.tree_paths.specs.States.{state_at, walk_of};
ghost use Rattle.tree_paths.specs.declared.states.State.TheVariants as state;
ghost use Rattle.policy_reading.specs.Deciding.{first_fault};
ghost use Rattle.tree_paths.specs.Repositories.{readings_of};
ghost use Rattle.policy_reading.specs.Metadata.{metadata_entries, rule_files};
ghost use Rattle.policy_epochs.specs.declared.policies.Policy.{Policy};
ghost use Rattle.policy_reading.specs.Policies.{policy_of, policy_reads};
ghost use Rattle.policy_reading.specs.Valid.{IsValid};

/// The first fault of rule files, by which policies are defined, is theirs, or they have none and are a policy's.
pub fn first_fault()
    ensures { (files : List RuleFile) → IsFirstFault files (first_fault files) }
{}

/// Where the state of a target is whole, its policy takes at most 12 reads beside one for each tree that is visited and
/// one for each rule file.
pub fn reads()
    ensures { (r : Repository) (target tree : List ℕ) (paths dirs : ℕ) → state_at (walk_of (readings_of r) target)
        ≡ state.Whole tree paths dirs
        → policy_reads r target ≡ 12 + dirs + length (rule_files (metadata_entries (readings_of r).trees tree)) }
{}

/// The policy of a target is valid exactly where the target's state is whole; there is a root, and it and each rule
/// file are read; as many persons of the root role as it asks for signed the root, with keys of the root; no two rules
/// have one name, each file below hangs on a rule of a chain, no chain is longer than eight, and rules and listed keys
/// are few enough; the top file is signed as the root asks, with keys of the root, and each other as the rule of its
/// name asks, with keys of the file that holds this rule.
pub fn valid_where()
    ensures { (r : Repository) (target : List ℕ) (policy : Policy)
        → (policy_of r target ≡ Ok policy) ↔ IsValid r target policy }
{}
