//! What is found of an entry before and after it is taken.

ghost use Rattle.std.specs.Prelude.{◌≡◌, is_some, IfOk, if◌then◌else◌};
ghost use Rattle.std.specs.Option.{option_copied};
ghost use Rattle.git_object.specs.References.{policy_name};
ghost use Rattle.rsl_chain.specs.Entries.{is_of};
ghost use Rattle.policy_changes.specs.Persons.{persons_of};
ghost use Rattle.accounts.specs.Rows.{counted_by};
ghost use Rattle.accounts.specs.Steps.{apart_signer, changed_then, is_apart, is_signed_among, said_before};

use crate::changes::{changed_then, said_before};
use crate::rows::{apart_signer, is_signed, told_persons};
use git_object::{KeyId, ObjectId};
use judging::KeyIds;
use octets::{Items, Memory, Octets};
use policy_changes::{PolicyChange, PolicySays};
use policy_epochs::Policy;
use rsl_chain::Entry;
use std::alloc::Global;

/// What is found before an entry is taken: its signer, where the rules do not find that; what the policy in force says,
/// where the entry is of the policy's reference; and the target of the attestations' reference.
#[derive(Drop)]
pub(crate) struct Before {
    pub apart: Option<KeyId>,
    pub said: Option<PolicySays>,
    pub attested: Option<ObjectId>,
}

/// What is found once an entry is taken.
#[derive(Drop)]
pub(crate) struct After {
    pub signed: bool,
    pub signers: KeyIds,
    pub persons: Items<Octets>,
    pub changed: Option<PolicyChange>,
}

/// What is found under the policy in force before an entry.
pub(crate) fn before_of(
    alloc: Global,
    policy: Option<&Policy>,
    entry: &Entry,
    attested: Option<ObjectId>,
) -> Result<Before, Memory>
    ensures apart { IfOk result (λ before. before.apart ≡ apart_signer (option_copied policy.entry) entry.now) }
    ensures said { IfOk result (λ before. before.said
        ≡ said_before (option_copied policy.entry) (is_of entry.now.body policy_name)) }
    ensures attested { IfOk result (λ before. before.attested ≡ attested) }
{
    let apart = apart_signer(policy, entry);
    let said = said_before(alloc, policy, entry)?;
    Ok(Before {
        apart,
        said,
        attested,
    })
}

/// What is found under the policy in force behind an entry, by whom the rules found to have signed or approved it.
pub(crate) fn after_of(
    alloc: Global,
    policy: Option<&Policy>,
    signers: &KeyIds,
    entry: &Entry,
    before: &Before,
    opens: bool,
) -> Result<After, Memory>
    ensures signed { IfOk result (λ after. after.signed ≡ (if is_apart entry.now.body then is_some before.now.apart
        else is_signed_among (option_copied policy.entry) entry.now before.now.attested signers.now)) }
    ensures signers { IfOk result (λ after. after.signers ≡ signers.now) }
    ensures persons { IfOk result (λ after. after.persons
        ≡ persons_of (option_copied policy.entry) (counted_by entry.now.body before.now.apart signers.now)) }
    ensures changed { IfOk result (λ after. after.changed
        ≡ changed_then opens before.now.said (option_copied policy.entry)) }
{
    let signed = is_signed(policy, entry, &before.attested, &before.apart, signers);
    let persons = told_persons(alloc, policy, entry, &before.apart, signers)?;
    let changed = changed_then(alloc, opens, &before.said, policy)?;
    let signers = signers.copy()?;
    Ok(After {
        signed,
        signers,
        persons,
        changed,
    })
}
