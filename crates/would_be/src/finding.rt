//! What would be found of an entry.

ghost use Rattle.std.specs.Prelude.{◌≡◌, Some, IfOk};
ghost use Rattle.std.specs.Option.{option_copied};
ghost use Rattle.std.specs.Result.{result_err};
ghost use Rattle.octets.specs.Causes.{HasCause};
ghost use Rattle.git_object.specs.Repository.{Repository};
ghost use Rattle.keeper_api.specs.Faults.{keeper_failed};
ghost use Rattle.keeper_api.specs.Undisturbed.{Undisturbed};
ghost use Rattle.entry_rules.specs.RealRules.{epoch_by};
ghost use Rattle.would_be.specs.Would.{IsOrdinary, IsWould, epoch_would};

use crate::changes::{alone, find_change};
use crate::{Proposed, Stood, Would};
use entry_rules::Fault;
use git_object::ObjectId;
use keeper_api::{Keeper, KeeperFault};
use known_signers::KnownSigners;
use octets::Memory;
use policy_epochs::{Policy, PolicyFault, succession_fault};
use policy_reading::check_policy;
use root_metadata::KeyIds;
use std::alloc::Global;

// The fault of an entry of the policy's reference, by what was found of its policy.
fn epoch_fault(
    alloc: Global,
    known: &KnownSigners,
    anchor: &Option<KeyIds>,
    current: Option<&Policy>,
    found: Result<Policy, PolicyFault>,
) -> Result<Option<Fault>, Memory>
    ensures { IfOk result (λ fault. fault ≡ result_err (epoch_by anchor.now (option_copied current.entry) found)) }
{
    match found {
        Err(why) => Ok(Some(Fault::NotEpoch { why })),
        Ok(policy) => match succession_fault(alloc, known, anchor, current, &policy)? {
            Some(why) => Ok(Some(Fault::NotEpoch { why })),
            None => Ok(None),
        },
    }
}

// Of an entry of the policy's reference.
fn find_epoch<R: Keeper>(
    alloc: Global,
    keeper: &mut R,
    anchor: &Option<KeyIds>,
    current: Option<&Policy>,
    target: &ObjectId,
) -> Result<Would, KeeperFault>
    ensures found { IfOk result (λ found. (r : Repository) → R.content keeper.new ≡ Some r
        → found ≡ epoch_would anchor.now r (option_copied current.entry) target.now) }
    ensures same { Undisturbed R.Keeper keeper.old keeper.new }
    ensures cause { HasCause keeper_failed (R.faults keeper.old) (R.faults keeper.new) result }
{
    let known = KnownSigners::new();
    let found = check_policy(alloc, keeper, &known, target)?;
    let fault = epoch_fault(alloc, &known, anchor, current, found)?;
    Ok(alone(alloc, fault)?)
}

// Of an entry of another reference.
fn find_ordinary<R: Keeper>(
    alloc: Global,
    keeper: &mut R,
    current: Option<&Policy>,
    stood: &Stood,
    proposed: &Proposed,
) -> Result<Would, KeeperFault>
    ensures found { IfOk result (λ found. (r : Repository) → R.content keeper.new ≡ Some r
        → IsOrdinary r (option_copied current.entry) stood.now proposed.now found) }
    ensures same { Undisturbed R.Keeper keeper.old keeper.new }
    ensures cause { HasCause keeper_failed (R.faults keeper.old) (R.faults keeper.new) result }
{
    match current {
        Some(policy) => find_change(alloc, keeper, policy, stood, proposed),
        None => Ok(alone(alloc, Some(Fault::NoPolicy))?),
    }
}

/// What would be found of an entry, if these keys signed it now, under the policy in force, by what stands: the first
/// of its faults is the one that it would have. Where no policy is in force, where a state is broken and of the
/// policy's own reference there is one at most; else there is one for the reference, where its signers do not meet it,
/// and one for each path that changes and that they do not meet. Where ids are given, the first policy must have
/// exactly their keys.
pub fn would<R: Keeper>(
    alloc: Global,
    keeper: &mut R,
    anchor: &Option<KeyIds>,
    current: Option<&Policy>,
    stood: &Stood,
    proposed: &Proposed,
) -> Result<Would, KeeperFault>
    ensures found { IfOk result (λ found. (r : Repository) → R.content keeper.new ≡ Some r
        → IsWould anchor.now r (option_copied current.entry) stood.now proposed.now found) }
    ensures same { Undisturbed R.Keeper keeper.old keeper.new }
    ensures cause { HasCause keeper_failed (R.faults keeper.old) (R.faults keeper.new) result }
{
    if proposed.name.is_policy() {
        return find_epoch(alloc, keeper, anchor, current, &proposed.target);
    }
    find_ordinary(alloc, keeper, current, stood, proposed)
}
