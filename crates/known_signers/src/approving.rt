//! Who approved a change, by what is known of who signed and of what was read.

ghost use Rattle.std.specs.Prelude.{◌≡◌, ◌≤◌, ◌+◌, Some, IfOk};
ghost use Rattle.octets.specs.Causes.{HasCause};
ghost use Rattle.git_object.specs.Repository.{Repository};
ghost use Rattle.keeper_api.specs.Faults.{keeper_failed};
ghost use Rattle.keeper_api.specs.Undisturbed.{Undisturbed};
ghost use Rattle.approvals.specs.Approvals.{is_approval};
ghost use Rattle.approvals.specs.Lookups.{approval_at, approval_of, approvers_of};

use crate::KnownSigners;
use approvals::{APPROVAL_TYPE, load_file, path_of};
use dsse_envelope::Envelope;
use git_object::{ObjectId, RefName};
use keeper_api::{Keeper, KeeperFault};
use octets::Memory;
use root_metadata::{KeyIds, Keys, id_set};
use std::alloc::Global;

fn is_approval(
    alloc: Global,
    known: &KnownSigners,
    envelope: &Envelope,
    name: &RefName,
    from: &ObjectId,
    tree: &ObjectId,
) -> Result<bool, Memory>
    ensures { IfOk result (λ is. is ≡ is_approval name.now from.now tree.now envelope.now) }
{
    if envelope.payload_type.as_slice() != APPROVAL_TYPE {
        return Ok(false);
    }
    known.lets_go(alloc, envelope.payload.as_slice(), name, from, tree)
}

// The approval that a text is.
#[tactic(auto, unfolding(approvals::specs::Lookups::approval_of))]
fn approval_of(
    alloc: Global,
    known: &KnownSigners,
    text: &[u8],
    name: &RefName,
    from: &ObjectId,
    tree: &ObjectId,
) -> Result<Option<Envelope>, Memory>
    ensures { IfOk result (λ found. found ≡ approval_of name.now from.now tree.now text.now) }
{
    let Some(envelope) = known.envelope(alloc, text)? else {
        return Ok(None);
    };
    if is_approval(alloc, known, &envelope, name, from, tree)? {
        return Ok(Some(envelope));
    }
    Ok(None)
}

// The approval among the attestations for a change.
fn load_approval<R: Keeper>(
    alloc: Global,
    keeper: &mut R,
    known: &KnownSigners,
    attestations: &ObjectId,
    name: &RefName,
    from: &ObjectId,
    tree: &ObjectId,
) -> Result<Option<Envelope>, KeeperFault>
    ensures found { IfOk result (λ found. (r : Repository) → R.content keeper.new ≡ Some r
        → found ≡ approval_at r attestations.now name.now from.now tree.now) }
    ensures same { Undisturbed R.Keeper keeper.old keeper.new }
    ensures cause { HasCause keeper_failed (R.faults keeper.old) (R.faults keeper.new) result }
    ensures reads { R.reads keeper.new ≤ R.reads keeper.old + 28 }
{
    let path = path_of(alloc, name, from, tree)?;
    let Some(object) = load_file(alloc, keeper, attestations, path.as_slice())? else {
        return Ok(None);
    };
    let found = approval_of(alloc, known, object.body(), name, from, tree)?;
    Ok(found)
}

/// The ids of those keys that signed the approval among the attestations for a reference, the target that it goes from
/// and the tree that it goes to (zeros stand for what is not there), as a set: empty where there is no such approval.
/// A text that was read before is not read again, and no signature of an approval whose signers are known is checked.
/// It makes at most 28 reads.
pub fn approvers<R: Keeper>(
    alloc: Global,
    keeper: &mut R,
    known: &KnownSigners,
    attestations: &ObjectId,
    name: &RefName,
    from: &ObjectId,
    tree: &ObjectId,
    keys: &Keys,
) -> Result<KeyIds, KeeperFault>
    ensures found { IfOk result (λ ids. (r : Repository) → R.content keeper.new ≡ Some r
        → ids ≡ approvers_of r attestations.now name.now from.now tree.now keys.now) }
    ensures same { Undisturbed R.Keeper keeper.old keeper.new }
    ensures cause { HasCause keeper_failed (R.faults keeper.old) (R.faults keeper.new) result }
    ensures reads { R.reads keeper.new ≤ R.reads keeper.old + 28 }
{
    let Some(envelope) = load_approval(alloc, keeper, known, attestations, name, from, tree)? else {
        return Ok(id_set(alloc, &[])?);
    };
    Ok(known.signers(alloc, &envelope, keys)?)
}
