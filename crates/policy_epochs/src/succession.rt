//! What keeps a valid policy from following the one in force.

ghost use Rattle.std.specs.Prelude.{◌≡◌, ◌==◌, ◌+◌, IfOk};
ghost use Rattle.std.specs.Option.{option_copied};
ghost use Rattle.policy_epochs.specs.Succession.{anchor_fault, dropped_fault, following_fault, lowered_fault};
ghost use Rattle.policy_epochs.specs.Succession.{root_fault, same_root, signing_fault, succession, version_fault};

use crate::anchors::are_exactly;
use crate::files::{find_dropped, find_lowered};
use crate::{Policy, PolicyFault};
use known_signers::KnownSigners;
use octets::Memory;
use root_metadata::{KeyIds, count_in};
use std::alloc::Global;

// What keeps a policy from being the first of a log, where ids of keys are given.
fn anchor_fault(anchor: &Option<KeyIds>, new: &Policy) -> Option<PolicyFault>
    ensures { result ≡ anchor_fault anchor.now new.now }
{
    match anchor {
        None => None,
        Some(ids) => {
            if are_exactly(&new.root.root.persons, ids) {
                None
            } else {
                Some(PolicyFault::Anchor)
            }
        }
    }
}

fn same_root(old: &Policy, new: &Policy) -> bool
    ensures { result ≡ same_root old.now new.now }
{
    new.envelope.payload.as_slice() == old.envelope.payload.as_slice()
}

fn is_next(old: u64, new: u64) -> bool
    ensures { result ≡ (new == old + 1) }
{
    new > old && new - old == 1
}

// Of a root that is another: its version is not the next.
fn version_fault(old: &Policy, new: &Policy) -> Option<PolicyFault>
    ensures { result ≡ version_fault old.now new.now }
{
    if same_root(old, new) || is_next(old.root.version, new.root.version) {
        None
    } else {
        Some(PolicyFault::RootVersion {
            old: old.root.version,
            new: new.root.version,
        })
    }
}

// Of a root that is another, which the keys of these ids signed: too few are of the old root role.
fn signing_fault(old: &Policy, signers: &KeyIds) -> Option<PolicyFault>
    ensures { result ≡ signing_fault old.now signers.now }
{
    let got = count_in(&old.root.root.persons, signers);
    let need = old.root.root.threshold;
    if got >= need as usize {
        None
    } else {
        Some(PolicyFault::RootSuccession { got, need })
    }
}

// Of a root that is another: too few persons of the old root role signed it with keys of the old root.
fn root_fault(
    alloc: Global,
    known: &KnownSigners,
    old: &Policy,
    new: &Policy,
) -> Result<Option<PolicyFault>, Memory>
    ensures { IfOk result (λ fault. fault ≡ root_fault old.now new.now) }
{
    if same_root(old, new) {
        return Ok(None);
    }
    let signers = known.signers(alloc, &new.envelope, &old.root.keys)?;
    Ok(signing_fault(old, &signers))
}

fn lowered_fault(old: &Policy, new: &Policy) -> Result<Option<PolicyFault>, Memory>
    ensures { IfOk result (λ fault. fault ≡ lowered_fault old.now new.now) }
{
    match find_lowered(old.files.as_slice(), new.files.as_slice()) {
        None => Ok(None),
        Some(file) => Ok(Some(PolicyFault::FileVersion {
            file: file.name.copy()?,
        })),
    }
}

fn dropped_fault(old: &Policy, new: &Policy) -> Result<Option<PolicyFault>, Memory>
    ensures { IfOk result (λ fault. fault ≡ dropped_fault old.now new.now) }
{
    let root_raised = old.root.version < new.root.version;
    match find_dropped(old.files.as_slice(), new.files.as_slice(), root_raised) {
        None => Ok(None),
        Some(file) => Ok(Some(PolicyFault::FileDropped {
            file: file.name.copy()?,
        })),
    }
}

// What keeps a policy from following another: the first rule that it breaks.
fn following_fault(
    alloc: Global,
    known: &KnownSigners,
    old: &Policy,
    new: &Policy,
) -> Result<Option<PolicyFault>, Memory>
    ensures { IfOk result (λ fault. fault ≡ following_fault old.now new.now) }
{
    match version_fault(old, new) {
        Some(fault) => return Ok(Some(fault)),
        None => {}
    }
    match root_fault(alloc, known, old, new)? {
        Some(fault) => return Ok(Some(fault)),
        None => {}
    }
    match lowered_fault(old, new)? {
        Some(fault) => return Ok(Some(fault)),
        None => {}
    }
    dropped_fault(old, new)
}

/// What keeps a valid policy from taking effect under the one in force, or from being the first where none is: the
/// first rule that it breaks. Where ids are given, the first policy's root role must have exactly their keys.
pub fn succession_fault(
    alloc: Global,
    known: &KnownSigners,
    anchor: &Option<KeyIds>,
    current: Option<&Policy>,
    new: &Policy,
) -> Result<Option<PolicyFault>, Memory>
    ensures { IfOk result (λ fault. fault ≡ succession anchor.now (option_copied current.entry) new.now) }
{
    match current {
        None => Ok(anchor_fault(anchor, new)),
        Some(old) => following_fault(alloc, known, old, new),
    }
}
