//! Which references the policy in force protects and the log does not speak of.

ghost use Rattle.std.specs.Prelude.{◌≡◌, List};
ghost use Rattle.std.specs.Option.{option_copied};
ghost use Rattle.rsl_chain.specs.Entries.{Taken};
ghost use Rattle.entry_rules.specs.Meeting.{git_name, meets};
ghost use Rattle.entry_rules.specs.RealRules.{real_rules};
ghost use Rattle.accounts.specs.Judging.{StandsFor};
ghost use Rattle.accounts.specs.Unrecorded.{is_protected, is_unrecorded};

use crate::JudgedLog;
use git_object::RefName;
use policy_epochs::Policy;
use ref_patterns::Space;
use root_metadata::KeyIds;
use rule_delegations::Rules;
use std::alloc::Global;

// Whether the signers meet the name of a reference.
fn meets(rules: &Rules, name: &[u8], signers: &KeyIds) -> bool
    ensures { result ≡ meets rules.now (git_name name.now) signers.now }
{
    let _files = rules.files();
    rules.meets(Space::Git, name, signers)
}

// Whether an entry of the reference is authorised only where somebody signs or approves it.
fn is_protected(alloc: Global, policy: Option<&Policy>, name: &RefName) -> bool
    ensures { result ≡ is_protected (option_copied policy.entry) name.now }
{
    match policy {
        Some(policy) => !meets(&policy.rules, name.text(), &KeyIds::new(alloc)),
        None => false,
    }
}

/// Whether the policy in force behind a judged log protects a reference of which the log does not speak.
pub(crate) fn is_unrecorded(alloc: Global, judged: &JudgedLog, name: &RefName) -> bool
    ensures { (log : List Taken) → StandsFor log judged.now
        → result ≡ is_unrecorded (real_rules judged.now.engine.rules.anchor) log name.now }
{
    !judged.names.has(name) && is_protected(alloc, judged.engine.policy(), name)
}
