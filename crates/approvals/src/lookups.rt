//! The approval for a change, and who signed it.

ghost use Rattle.std.specs.Prelude.{◌≡◌, ◌≤◌, ◌+◌, length, true, Some, None, IfOk, IfSome};
ghost use Rattle.std.specs.List.{AllByRecursion};
ghost use Rattle.std.specs.Result.{result_ok};
ghost use Rattle.octets.specs.Causes.{HasCause};
ghost use Rattle.git_object.specs.Ids.{IsId};
ghost use Rattle.git_object.specs.Names.{IsRefName, components};
ghost use Rattle.git_object.specs.Repository.{Repository};
ghost use Rattle.git_object.specs.Trees.{IsEntryName};
ghost use Rattle.dsse_envelope.specs.Envelopes.{reading};
ghost use Rattle.dsse_envelope.specs.Written.{IsWritable};
ghost use Rattle.keeper_api.specs.Faults.{keeper_failed};
ghost use Rattle.keeper_api.specs.Undisturbed.{Undisturbed};
ghost use Rattle.approvals.specs.Approvals.{approval_path, is_approval};
ghost use Rattle.approvals.specs.Lookups.{approval_at, approval_of, approvers_of};

use crate::env_signers;
use crate::loading::load_file;
use crate::payload_fields::is_approval;
use dsse_envelope::{Envelope, EnvelopeFault};
use git_object::{ObjectId, RefName};
use keeper_api::{Keeper, KeeperFault};
use octets::{Memory, Octets};
use root_metadata::{KeyIds, Keys, id_set};
use std::alloc::Global;

fn write_path(
    alloc: Global,
    name: &RefName,
    from: &ObjectId,
    tree: &ObjectId,
) -> Result<Octets, Memory>
    ensures path { IfOk result (λ path. path ≡ approval_path name.now from.now tree.now) }
    ensures named { IsRefName name.now }
    ensures ids { IsId from.now × IsId tree.now }
{
    let text = name.text();
    let _ = from.as_bytes();
    let _ = tree.as_bytes();
    let mut path = Octets::from_slice(alloc, b"reference-authorizations/")?;
    path.append(text)?;
    path.append(b"/")?;
    path.append(&from.to_hex())?;
    path.append(b"-")?;
    path.append(&tree.to_hex())?;
    Ok(path)
}

/// The path of an approval in the tree of the attestations: `reference-authorizations/`, the reference, `/`, the digits
/// of the target that it goes from, `-`, and those of the tree that it goes to. It has at most 18 names, and each may
/// stand in a tree.
pub fn path_of(
    alloc: Global,
    name: &RefName,
    from: &ObjectId,
    tree: &ObjectId,
) -> Result<Octets, Memory>
    ensures path { IfOk result (λ path. path ≡ approval_path name.now from.now tree.now) }
    ensures few { IfOk result (λ path. length (components path) ≤ 18) }
    ensures named { IfOk result (λ path. AllByRecursion IsEntryName (components path)) }
{
    let path = write_path(alloc, name, from, tree)?;
    Ok(path)
}

// The envelope that bytes are.
fn envelope_in(alloc: Global, bytes: &[u8]) -> Result<Option<Envelope>, Memory>
    ensures found { IfOk result (λ found. found ≡ result_ok (reading bytes.now)) }
    ensures writable { IfOk result (λ found. IfSome found IsWritable) }
{
    match Envelope::read(alloc, bytes) {
        Ok(envelope) => Ok(Some(envelope)),
        Err(EnvelopeFault::NotJson) => Ok(None),
        Err(EnvelopeFault::MissingField) => Ok(None),
        Err(EnvelopeFault::BadCount { count: _ }) => Ok(None),
        Err(EnvelopeFault::BadBase64) => Ok(None),
        Err(EnvelopeFault::Memory) => Err(Memory),
    }
}

// The approval that bytes are.
fn approval_of(
    alloc: Global,
    bytes: &[u8],
    name: &RefName,
    from: &ObjectId,
    tree: &ObjectId,
) -> Result<Option<Envelope>, Memory>
    ensures found { IfOk result (λ found. found ≡ approval_of name.now from.now tree.now bytes.now) }
    ensures approves { IfOk result
        (λ found. IfSome found (λ envelope. is_approval name.now from.now tree.now envelope ≡ true)) }
    ensures writable { IfOk result (λ found. IfSome found IsWritable) }
{
    let Some(envelope) = envelope_in(alloc, bytes)? else {
        return Ok(None);
    };
    let is = is_approval(alloc, &envelope, name, from, tree)?;
    if !is {
        return Ok(None);
    }
    Ok(Some(envelope))
}

/// The approval among the attestations, by the target of their reference, that lets a reference go from a target to a
/// tree: the file at its path, where that is an envelope of an approval for these. None where anything of this fails.
/// It makes at most 28 reads.
pub fn load_approval<R: Keeper>(
    alloc: Global,
    keeper: &mut R,
    attestations: &ObjectId,
    name: &RefName,
    from: &ObjectId,
    tree: &ObjectId,
) -> Result<Option<Envelope>, KeeperFault>
    ensures found { IfOk result (λ found. (r : Repository) → R.content keeper.new ≡ Some r
        → found ≡ approval_at r attestations.now name.now from.now tree.now) }
    ensures approves { IfOk result
        (λ found. IfSome found (λ envelope. is_approval name.now from.now tree.now envelope ≡ true)) }
    ensures writable { IfOk result (λ found. IfSome found IsWritable) }
    ensures same { Undisturbed R.Keeper keeper.old keeper.new }
    ensures cause { HasCause keeper_failed (R.faults keeper.old) (R.faults keeper.new) result }
    ensures reads { R.reads keeper.new ≤ R.reads keeper.old + 28 }
{
    let path = path_of(alloc, name, from, tree)?;
    let Some(object) = load_file(alloc, keeper, attestations, path.as_slice())? else {
        return Ok(None);
    };
    let found = approval_of(alloc, object.body(), name, from, tree)?;
    Ok(found)
}

/// The ids of those keys that signed the approval among the attestations for a reference, the target that it goes from
/// and the tree that it goes to (zeros stand for what is not there), as a set: empty where there is no such approval.
/// It makes at most 28 reads.
pub fn approvers<R: Keeper>(
    alloc: Global,
    keeper: &mut R,
    attestations: &ObjectId,
    name: &RefName,
    from: &ObjectId,
    tree: &ObjectId,
    keys: &Keys,
) -> Result<KeyIds, KeeperFault>
    ensures found { IfOk result (λ ids. (r : Repository) → R.content keeper.new ≡ Some r
        → ids ≡ approvers_of r attestations.now name.now from.now tree.now keys.now) }
    ensures same { Undisturbed R.Keeper keeper.old keeper.new }
    ensures cause { HasCause keeper_failed (R.faults keeper.old) (R.faults keeper.new) result }
    ensures reads { R.reads keeper.new ≤ R.reads keeper.old + 28 }
{
    let Some(envelope) = load_approval(alloc, keeper, attestations, name, from, tree)? else {
        return Ok(id_set(alloc, &[])?);
    };
    Ok(env_signers(alloc, &envelope, keys)?)
}
