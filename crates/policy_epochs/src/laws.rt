//! What the definitions say, as a reader would say it. No call needs these functions: their contracts are the laws,
//! those of the epochs over any policies `P`, any faults `F` and any rule of succession.

ghost use Rattle.std.specs.Prelude.{◌≡◌, ◌↔◌, ℕ, List, None, Option, Result, Some};
ghost use Rattle.std.specs.List.{Contains};
ghost use Rattle.policy_epochs.specs.Epochs.{AreEpochs, OneList, policy_after, policy_in};
ghost use Rattle.policy_epochs.specs.Following.{AreKeysOf, Follows};
ghost use Rattle.policy_epochs.specs.Readings.{IsEpoch};
ghost use Rattle.policy_epochs.specs.Succession.{anchor_fault, succession};
ghost use Rattle.policy_epochs.specs.declared.policies.Policy.{Policy};

/// Exactly one list meets the definition of the epochs.
pub fn one_epoch_list<P, F>()
    ensures { (checked : ℕ → Option (Result P F)) (succession : Option P → P → Option F) (n : ℕ)
        → OneList checked succession n }
{}

/// A number is in that list exactly where its entry brings a valid policy that may follow the policy of the greatest
/// number of the list below it, or may be the first where there is none below.
pub fn epochs_where<P, F>()
    ensures { (checked : ℕ → Option (Result P F)) (succession : Option P → P → Option F) (n : ℕ) (list : List ℕ)
        → AreEpochs checked succession n list → (k : ℕ) → Contains list k ↔ IsEpoch checked succession n list k }
{}

/// Going through the entries in turn and keeping one policy, the last that took effect, gives the policy of the last of
/// the epochs.
pub fn policy_of_the_last_epoch<P, F>()
    ensures { (checked : ℕ → Option (Result P F)) (succession : Option P → P → Option F) (n : ℕ) (list : List ℕ)
        → AreEpochs checked succession n list → policy_in checked list ≡ policy_after checked succession n }
{}

/// A valid policy takes effect under the one in force exactly where it follows it by the four rules, whatever ids are
/// given.
pub fn follows_where()
    ensures { (anchor : Option (List (List ℕ))) (old new : Policy)
        → (succession anchor (Some old) new ≡ None) ↔ Follows old new }
{}

/// Where ids of keys are given, a valid policy is the first exactly where they are those of the keys of its root role's
/// persons; where none are given, any is.
pub fn anchored_where()
    ensures given { (ids : List (List ℕ)) (new : Policy)
        → (succession (Some ids) None new ≡ None) ↔ AreKeysOf new.root.root.persons ids }
    ensures free { (new : Policy) → succession None None new ≡ None }
{}
