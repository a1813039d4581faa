//! The keys that would have signed.

ghost use Rattle.std.specs.Prelude.{◌≡◌, ◌++◌, ◌∷◌, [], IfOk, OnOk, Some};
ghost use Rattle.std.specs.List.{filter};
ghost use Rattle.octets.specs.Causes.{HasCause};
ghost use Rattle.git_object.specs.Repository.{Repository};
ghost use Rattle.keeper_api.specs.Faults.{keeper_failed};
ghost use Rattle.keeper_api.specs.Undisturbed.{Undisturbed};
ghost use Rattle.root_metadata.specs.Shapes.{set_of};
ghost use Rattle.entry_rules.specs.Signing.{approved};
ghost use Rattle.would_be.specs.Would.{is_key_of, signers_to};

use crate::{Proposed, Stood};
use approvals::approvers;
use git_object::{KeyId, ObjectId};
use keeper_api::{Keeper, KeeperFault};
use octets::{Items, Memory};
use policy_epochs::Policy;
use root_metadata::{KeyIds, Keys, id_set};
use std::alloc::Global;

/// Whether an id is that of one of the keys.
pub fn is_key_of(keys: &Keys, id: &KeyId) -> bool
    ensures { result ≡ is_key_of keys.now id.now }
{
    let keys = keys.as_slice();
    keys.iter().any(|key| key.id.as_bytes() == id.as_bytes())
}

// Those of the ids that are of the keys.
fn known_ids(alloc: Global, keys: &Keys, ids: &[KeyId]) -> Result<Items<KeyId>, Memory>
    ensures { IfOk result (λ known. known ≡ filter (is_key_of keys.now) ids.now) }
{
    let mut known = Items::new(alloc);
    'ids: for id in ids {
        if is_key_of(keys, id) {
            known.push(*id)?;
        }
    }
    Ok(known)
}

fn append(ids: &mut Items<KeyId>, more: &[KeyId]) -> Result<(), Memory>
    ensures { OnOk result (ids.new ≡ ids.old ++ more.now) }
{
    'ids: for id in more {
        ids.push(*id)?;
    }
    Ok(())
}

/// The ids of a set, in its order.
pub(crate) fn listed(alloc: Global, set: &KeyIds) -> Result<Items<KeyId>, Memory>
    ensures { IfOk result (λ ids. ids ≡ set.now) }
{
    let mut ids = Items::new(alloc);
    append(&mut ids, set.as_slice())?;
    Ok(ids)
}

// Those of the ids that are of the keys, and these, as a set.
fn joined(alloc: Global, keys: &Keys, ids: &KeyIds, approvers: &KeyIds) -> Result<KeyIds, Memory>
    ensures { IfOk result (λ set. set ≡ set_of (filter (is_key_of keys.now) ids.now ++ approvers.now)) }
{
    let mut known = known_ids(alloc, keys, ids.as_slice())?;
    append(&mut known, approvers.as_slice())?;
    id_set(alloc, known.as_slice())
}

// Those of the policy's keys that approved the change to a tree.
fn approved<R: Keeper>(
    alloc: Global,
    keeper: &mut R,
    policy: &Policy,
    stood: &Stood,
    proposed: &Proposed,
    tree: &ObjectId,
) -> Result<KeyIds, KeeperFault>
    ensures found { IfOk result (λ ids. (r : Repository) → R.content keeper.new ≡ Some r
        → ids ≡ approved r policy.now.keys proposed.now.name stood.now.from stood.now.attested (Some tree.now)) }
    ensures same { Undisturbed R.Keeper keeper.old keeper.new }
    ensures cause { HasCause keeper_failed (R.faults keeper.old) (R.faults keeper.new) result }
{
    match &stood.attested {
        Some(attestations) => approvers(
            alloc,
            keeper,
            attestations,
            &proposed.name,
            &stood.from,
            tree,
            &policy.keys,
        ),
        None => Ok(KeyIds::new(alloc)),
    }
}

/// The keys of the policy that would have signed for the change to a tree: those of the ones that would sign it that
/// are keys of the policy, and those that approved it.
pub(crate) fn signers_to<R: Keeper>(
    alloc: Global,
    keeper: &mut R,
    policy: &Policy,
    stood: &Stood,
    proposed: &Proposed,
    tree: &ObjectId,
) -> Result<KeyIds, KeeperFault>
    ensures signers { IfOk result (λ ids. (r : Repository) → R.content keeper.new ≡ Some r
        → ids ≡ signers_to r policy.now stood.now proposed.now (Some tree.now)) }
    ensures same { Undisturbed R.Keeper keeper.old keeper.new }
    ensures cause { HasCause keeper_failed (R.faults keeper.old) (R.faults keeper.new) result }
{
    let approvers = approved(alloc, keeper, policy, stood, proposed, tree)?;
    Ok(joined(alloc, &policy.keys, &proposed.keys, &approvers)?)
}
