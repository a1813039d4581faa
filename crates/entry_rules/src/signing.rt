//! Who signed for an entry.

ghost use Rattle.std.specs.Prelude.{◌≡◌, ◌≤◌, ◌+◌, ◌++◌, None, Some, IfOk, OnOk};
ghost use Rattle.std.specs.List.{list_any};
ghost use Rattle.std.specs.Option.{option_copied};
ghost use Rattle.octets.specs.Causes.{HasCause};
ghost use Rattle.git_object.specs.Repository.{Repository};
ghost use Rattle.keeper_api.specs.Faults.{keeper_failed};
ghost use Rattle.keeper_api.specs.Undisturbed.{Undisturbed};
ghost use Rattle.entry_rules.specs.RealRules.{approval_reads};
ghost use Rattle.entry_rules.specs.Signing.{approved, is_signed_by, joined, listed, signer_among};

use git_object::{KeyId, ObjectId, RefName};
use keeper_api::{Keeper, KeeperFault};
use known_signers::{KnownSigners, approvers};
use lms_keys::verify_any;
use octets::{Items, Memory};
use root_metadata::{Key, KeyIds, Keys, id_set};
use rsl_chain::Entry;
use std::alloc::Global;

// Whether the key has this id and the entry's signature is good by it.
fn is_signed_by(entry: &Entry, id: &KeyId, key: &Key) -> bool
    ensures { result ≡ is_signed_by entry.now id.now key.now }
{
    key.id.as_bytes() == id.as_bytes()
        && verify_any(
            key.public.as_slice(),
            entry.signed.as_slice(),
            entry.signature.as_slice(),
        )
}

fn is_signed_by_one(keys: &[Key], entry: &Entry, id: &KeyId) -> bool
    ensures { result ≡ list_any (is_signed_by entry.now id.now) keys.now }
{
    keys.iter().any(|key| is_signed_by(entry, id, key))
}

/// The id of the key that an entry names, where a key of this id is among the keys and the entry's signature is good by
/// it. It takes no memory.
pub fn signer_among(keys: &Keys, entry: &Entry) -> Option<KeyId>
    ensures { result ≡ signer_among keys.now entry.now }
{
    let id = entry.signer?;
    if is_signed_by_one(keys.as_slice(), entry, &id) {
        Some(id)
    } else {
        None
    }
}

// Whether the key has this id and the entry's signature is good by it, by what is known.
fn is_known_by(alloc: Global, known: &KnownSigners, entry: &Entry, id: &KeyId, key: &Key) -> bool
    ensures { result ≡ is_signed_by entry.now id.now key.now }
{
    key.id.as_bytes() == id.as_bytes()
        && known.is_good(
            alloc,
            key.public.as_slice(),
            entry.signed.as_slice(),
            entry.signature.as_slice(),
        )
}

fn is_known_by_one(
    alloc: Global,
    known: &KnownSigners,
    keys: &[Key],
    entry: &Entry,
    id: &KeyId,
) -> bool
    ensures { result ≡ list_any (is_signed_by entry.now id.now) keys.now }
{
    keys.iter()
        .any(|key| is_known_by(alloc, known, entry, id, key))
}

/// As `signer_among`, but that the last signature which was found good is not checked again.
pub fn known_signer(
    alloc: Global,
    known: &KnownSigners,
    keys: &Keys,
    entry: &Entry,
) -> Option<KeyId>
    ensures { result ≡ signer_among keys.now entry.now }
{
    let id = entry.signer?;
    if is_known_by_one(alloc, known, keys.as_slice(), entry, &id) {
        Some(id)
    } else {
        None
    }
}

fn append(ids: &mut Items<KeyId>, more: &[KeyId]) -> Result<(), Memory>
    ensures { OnOk result (ids.new ≡ ids.old ++ more.now) }
{
    'ids: for id in more {
        ids.push(*id)?;
    }
    Ok(())
}

/// The ids of a set, in its order.
pub fn listed_ids(alloc: Global, set: &KeyIds) -> Result<Items<KeyId>, Memory>
    ensures { IfOk result (λ ids. ids ≡ set.now) }
{
    let mut ids = Items::new(alloc);
    append(&mut ids, set.as_slice())?;
    Ok(ids)
}

fn listed(alloc: Global, signer: Option<KeyId>) -> Result<Items<KeyId>, Memory>
    ensures { IfOk result (λ ids. ids ≡ listed signer) }
{
    let mut ids = Items::new(alloc);
    match signer {
        Some(id) => {
            ids.push(id)?;
            Ok(ids)
        }
        None => Ok(ids),
    }
}

/// The signer's id and those of the approvers, as a set.
pub fn joined(alloc: Global, signer: Option<KeyId>, approvers: &KeyIds) -> Result<KeyIds, Memory>
    ensures { IfOk result (λ ids. ids ≡ joined signer approvers.now) }
{
    let mut ids = listed(alloc, signer)?;
    append(&mut ids, approvers.as_slice())?;
    id_set(alloc, ids.as_slice())
}

/// Those of the keys that approved a change of a reference from a target to a tree, by the attestations' target: none
/// where one of the two is not there, which is answered without a read. It makes at most 28 reads.
pub fn approved<R: Keeper>(
    alloc: Global,
    keeper: &mut R,
    signed: &KnownSigners,
    keys: &Keys,
    name: &RefName,
    from: &ObjectId,
    attestations: Option<&ObjectId>,
    tree: Option<ObjectId>,
) -> Result<KeyIds, KeeperFault>
    ensures found { IfOk result (λ ids. (r : Repository) → R.content keeper.new ≡ Some r
        → ids ≡ approved r keys.now name.now from.now (option_copied attestations.entry) tree) }
    ensures same { Undisturbed R.Keeper keeper.old keeper.new }
    ensures cause { HasCause keeper_failed (R.faults keeper.old) (R.faults keeper.new) result }
    ensures reads { R.reads keeper.new ≤ R.reads keeper.old + approval_reads (option_copied attestations.entry) }
    ensures none { tree ≡ None → R.reads keeper.new ≡ R.reads keeper.old }
{
    let Some(attestations) = attestations else {
        return Ok(id_set(alloc, &[])?);
    };
    let Some(tree) = tree else {
        return Ok(id_set(alloc, &[])?);
    };
    approvers(alloc, keeper, signed, attestations, name, from, &tree, keys)
}
