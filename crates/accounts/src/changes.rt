//! What the policy that an entry brings into force changes of the one before it.

ghost use Rattle.std.specs.Prelude.{◌≡◌, Some, true, false, IfOk};
ghost use Rattle.std.specs.Str.{bytes_eq};
ghost use Rattle.std.specs.Option.{option_copied};
ghost use Rattle.rsl_chain.specs.Entries.{is_of};
ghost use Rattle.git_object.specs.References.{policy_name};
ghost use Rattle.policy_changes.specs.Changes.{change_said};
ghost use Rattle.policy_changes.specs.Words.{says_of};
ghost use Rattle.octets.specs.Causes.{HasCause};
ghost use Rattle.git_object.specs.Repository.{Repository};
ghost use Rattle.keeper_api.specs.Faults.{keeper_failed};
ghost use Rattle.keeper_api.specs.Undisturbed.{Undisturbed};
ghost use Rattle.accounts.specs.Steps.{change_by, changed_then, said_before, would_change};

use crate::rows::is_policys;
use keeper_api::{Keeper, KeeperFault};
use known_signers::KnownSigners;
use octets::Memory;
use policy_changes::{PolicyChange, PolicySays, change_said, says_of};
use policy_epochs::{Policy, PolicyFault};
use policy_reading::check_policy;
use rsl_chain::Entry;
use std::alloc::Global;
use would_be::Proposed;

// What a policy says, where it is asked for.
fn said_where(alloc: Global, policy: &Policy, own: bool) -> Result<Option<PolicySays>, Memory>
    ensures { IfOk result (λ said. said ≡ said_before (Some policy.now) own) }
{
    if own {
        Ok(Some(says_of(alloc, policy)?))
    } else {
        Ok(None)
    }
}

/// What the policy in force says, before an entry that is the policy's reference's.
pub(crate) fn said_before(
    alloc: Global,
    policy: Option<&Policy>,
    entry: &Entry,
) -> Result<Option<PolicySays>, Memory>
    ensures { IfOk result (λ said. said
        ≡ said_before (option_copied policy.entry) (is_of entry.now.body policy_name)) }
{
    match policy {
        Some(policy) => said_where(alloc, policy, is_policys(entry)),
        None => Ok(None),
    }
}

// What changed from what one policy says to another.
fn change_to(alloc: Global, said: &PolicySays, policy: &Policy) -> Result<PolicyChange, Memory>
    ensures { IfOk result (λ change. change ≡ change_said said.now (says_of policy.now)) }
{
    let now = says_of(alloc, policy)?;
    change_said(alloc, said, &now)
}

// From what one says, if there was one.
fn changed_from(
    alloc: Global,
    said: &Option<PolicySays>,
    policy: Option<&Policy>,
) -> Result<Option<PolicyChange>, Memory>
    ensures { IfOk result (λ changed. changed ≡ changed_then true said.now (option_copied policy.entry)) }
{
    let Some(said) = said else {
        return Ok(None);
    };
    match policy {
        Some(policy) => Ok(Some(change_to(alloc, said, policy)?)),
        None => Ok(None),
    }
}

/// What changed from what a policy says to the one in force behind an entry, where that opens it.
pub(crate) fn changed_then(
    alloc: Global,
    opens: bool,
    said: &Option<PolicySays>,
    policy: Option<&Policy>,
) -> Result<Option<PolicyChange>, Memory>
    ensures { IfOk result (λ changed. changed ≡ changed_then opens said.now (option_copied policy.entry)) }
{
    if opens {
        changed_from(alloc, said, policy)
    } else {
        Ok(None)
    }
}

// What a policy that was found changes of the one in force.
fn change_by(
    alloc: Global,
    policy: &Policy,
    found: &Result<Policy, PolicyFault>,
) -> Result<Option<PolicyChange>, Memory>
    ensures { IfOk result (λ changed. changed ≡ change_by (Some policy.now) found.now) }
{
    match found {
        Ok(now) => {
            let said = says_of(alloc, policy)?;
            Ok(Some(change_to(alloc, &said, now)?))
        }
        Err(_) => Ok(None),
    }
}

/// What a proposed entry of the policy's reference would change of the policy in force, whether or not it brought its
/// own into force: None for another reference, of which nothing is read, and where one of the two policies is none.
pub(crate) fn would_change<R: Keeper>(
    alloc: Global,
    keeper: &mut R,
    policy: Option<&Policy>,
    proposed: &Proposed,
) -> Result<Option<PolicyChange>, KeeperFault>
    ensures changed { IfOk result (λ changed. (r : Repository) → R.content keeper.new ≡ Some r
        → changed ≡ would_change (option_copied policy.entry) r proposed.now) }
    ensures unread { bytes_eq proposed.now.name policy_name ≡ false → R.reads keeper.new ≡ R.reads keeper.old }
    ensures same { Undisturbed R.Keeper keeper.old keeper.new }
    ensures cause { HasCause keeper_failed (R.faults keeper.old) (R.faults keeper.new) result }
{
    let Some(policy) = policy else {
        return Ok(None);
    };
    if !proposed.name.is_policy() {
        return Ok(None);
    }
    let found = check_policy(alloc, keeper, &KnownSigners::new(), &proposed.target)?;
    Ok(change_by(alloc, policy, &found)?)
}
