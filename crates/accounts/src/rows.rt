//! What an engine knows of the next entry before it takes it.

ghost use Rattle.std.specs.Prelude.{◌≡◌, ◌&&◌, List, Some, cond, is_some, IfOk, if◌then◌else◌};
ghost use Rattle.std.specs.List.{list_any};
ghost use Rattle.std.specs.Option.{option_copied};
ghost use Rattle.std.specs.Str.{bytes_eq};
ghost use Rattle.rsl_chain.specs.Entries.{Taken, is_of};
ghost use Rattle.git_object.specs.References.{policy_name};
ghost use Rattle.judging.specs.Engines.{Stands};
ghost use Rattle.judging.specs.Rules.{Rules};
ghost use Rattle.policy_epochs.specs.declared.policies.Policy.{Policy};
ghost use Rattle.entry_rules.specs.declared.faults.Fault.{Fault};
ghost use Rattle.policy_changes.specs.Persons.{persons_of};
ghost use Rattle.accounts.specs.Rows.{counted_by, from_of, prior_of, signer_in};
ghost use Rattle.accounts.specs.Steps.{apart_signer, attested_then, is_among, is_apart, is_authorised, is_signed_among};

use entry_rules::{Fault, signer_among};
use git_object::{KeyId, ObjectId};
use judging::{EntryVerdict, KeyIds};
use octets::{Items, Memory, Octets};
use policy_changes::persons_of;
use policy_epochs::Policy;
use rsl_chain::{Entry, EntryBody};
use std::alloc::Global;
use verify_ref::LogEngine;

/// The number of the last entry of the next entry's reference that is not skipped.
pub(crate) fn prior_of(entries: &LogEngine, entry: &Entry) -> Option<u64>
    ensures { (rules : Rules Policy Fault) (log : List Taken) → Stands rules log entries.now
        → result ≡ prior_of rules log entry.now.body }
{
    match &entry.body {
        EntryBody::Reference { name, target: _ } => entries.prior(name),
        EntryBody::Annotation {
            ids: _,
            skip: _,
            message: _,
        } => None,
    }
}

/// Where the reference of the next entry stands.
pub(crate) fn from_of(entries: &LogEngine, entry: &Entry) -> Option<ObjectId>
    ensures { (rules : Rules Policy Fault) (log : List Taken) → Stands rules log entries.now
        → result ≡ from_of rules log entry.now.body }
{
    match &entry.body {
        EntryBody::Reference { name, target: _ } => entries.prior_target(name),
        EntryBody::Annotation {
            ids: _,
            skip: _,
            message: _,
        } => None,
    }
}

// The key that an entry names, where it is one of the policy and the signature is good by it.
fn signer_in(policy: Option<&Policy>, entry: &Entry) -> Option<KeyId>
    ensures { result ≡ signer_in (option_copied policy.entry) entry.now }
{
    match policy {
        Some(policy) => signer_among(&policy.keys, entry),
        None => None,
    }
}

// Whether the rules do not find who signed an entry.
fn is_apart(entry: &Entry) -> bool
    ensures { result ≡ is_apart entry.now.body }
{
    match &entry.body {
        EntryBody::Reference { name, target: _ } => name.is_policy(),
        EntryBody::Annotation {
            ids: _,
            skip: _,
            message: _,
        } => true,
    }
}

/// The signer of an entry of which the rules do not find who signed it, under the policy in force before it.
pub(crate) fn apart_signer(policy: Option<&Policy>, entry: &Entry) -> Option<KeyId>
    ensures { result ≡ apart_signer (option_copied policy.entry) entry.now }
{
    if is_apart(entry) {
        signer_in(policy, entry)
    } else {
        None
    }
}

fn has_key(keys: &[KeyId], id: &KeyId) -> bool
    ensures { result ≡ list_any (λ key. bytes_eq key id.now) keys.now }
{
    keys.iter().any(|key| key.as_bytes() == id.as_bytes())
}

// Whether a key that is named is one of these.
fn is_among(named: Option<KeyId>, keys: &[KeyId]) -> bool
    ensures { result ≡ is_among named keys.now }
{
    match named {
        Some(id) => has_key(keys, &id),
        None => false,
    }
}

// Whether the key that an entry names signed it, by those that the rules found to have signed or approved it. Its
// signature is checked again only where that key may have approved alone.
fn is_signed_among(
    policy: Option<&Policy>,
    entry: &Entry,
    attested: &Option<ObjectId>,
    signers: &KeyIds,
) -> bool
    ensures { result ≡ is_signed_among (option_copied policy.entry) entry.now attested.now signers.now }
{
    is_among(entry.signer, signers.as_slice())
        && (attested.is_none() || signer_in(policy, entry).is_some())
}

/// Whether an entry has a signer: that which stands apart from what the rules find, or one by whom they find, under the
/// policy in force behind it and with the attestations before it.
pub(crate) fn is_signed(
    policy: Option<&Policy>,
    entry: &Entry,
    attested: &Option<ObjectId>,
    apart: &Option<KeyId>,
    signers: &KeyIds,
) -> bool
    ensures { result ≡ (if is_apart entry.now.body then is_some apart.now else
        is_signed_among (option_copied policy.entry) entry.now attested.now signers.now) }
{
    if is_apart(entry) {
        apart.is_some()
    } else {
        is_signed_among(policy, entry, attested, signers)
    }
}

// The keys whose persons are told of an entry.
fn counted_by(
    alloc: Global,
    entry: &Entry,
    signer: &Option<KeyId>,
    signers: &KeyIds,
) -> Result<KeyIds, Memory>
    ensures { IfOk result (λ keys. keys ≡ counted_by entry.now.body signer.now signers.now) }
{
    match &entry.body {
        EntryBody::Reference { name: _, target: _ } => signers.copy(),
        EntryBody::Annotation {
            ids: _,
            skip: _,
            message: _,
        } => {
            let mut keys = Items::new(alloc);
            if let Some(signer) = signer {
                keys.push(*signer)?;
            }
            Ok(keys)
        }
    }
}

/// The names of the persons of the policy in force who signed or approved an entry, or of an annotation the one who
/// signed it.
pub(crate) fn told_persons(
    alloc: Global,
    policy: Option<&Policy>,
    entry: &Entry,
    signer: &Option<KeyId>,
    signers: &KeyIds,
) -> Result<Items<Octets>, Memory>
    ensures { IfOk result (λ names. names
        ≡ persons_of (option_copied policy.entry) (counted_by entry.now.body signer.now signers.now)) }
{
    let keys = counted_by(alloc, entry, signer, signers)?;
    persons_of(alloc, policy, keys.as_slice())
}

fn is_authorised(verdict: &EntryVerdict<Fault>) -> bool
    ensures { result ≡ is_authorised verdict.now }
{
    match verdict {
        EntryVerdict::Authorised => true,
        EntryVerdict::Refused(_) => false,
        EntryVerdict::Noted => false,
    }
}

/// Whether an entry is one of the policy's reference.
pub(crate) fn is_policys(entry: &Entry) -> bool
    ensures { result ≡ is_of entry.now.body policy_name }
{
    match &entry.body {
        EntryBody::Reference { name, target: _ } => name.is_policy(),
        EntryBody::Annotation {
            ids: _,
            skip: _,
            message: _,
        } => false,
    }
}

/// Whether an entry of which this is answered brings its policy into force.
pub(crate) fn opens(entry: &Entry, verdict: &EntryVerdict<Fault>) -> bool
    ensures { result ≡ (is_of entry.now.body policy_name && is_authorised verdict.now) }
{
    is_policys(entry) && is_authorised(verdict)
}

/// The target of the last entry of the attestations' reference, after this entry.
pub(crate) fn next_attested(attested: Option<ObjectId>, entry: &Entry) -> Option<ObjectId>
    ensures { result ≡ attested_then attested entry.now.body }
{
    match &entry.body {
        EntryBody::Reference { name, target } => {
            if name.is_attestations() {
                Some(*target)
            } else {
                attested
            }
        }
        EntryBody::Annotation {
            ids: _,
            skip: _,
            message: _,
        } => attested,
    }
}

/// The number of the last entry that brought a policy into force, after one of this number that does or does not.
pub(crate) fn next_epoch(epoch: Option<u64>, opens: bool, number: u64) -> Option<u64>
    ensures { result ≡ cond opens (Some number) epoch }
{
    if opens { Some(number) } else { epoch }
}
