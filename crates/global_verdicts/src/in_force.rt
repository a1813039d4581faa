//! The file of global rules of the policy in force.

ghost use Rattle.std.specs.Prelude.{◌≡◌, ◌&&◌, IfOk, Some, unwrap_or};
ghost use Rattle.std.specs.Option.{option_copied};
ghost use Rattle.octets.specs.Causes.{HasCause};
ghost use Rattle.git_object.specs.References.{policy_name};
ghost use Rattle.git_object.specs.Repository.{Repository};
ghost use Rattle.keeper_api.specs.Faults.{keeper_failed};
ghost use Rattle.keeper_api.specs.Undisturbed.{Undisturbed};
ghost use Rattle.rsl_chain.specs.Entries.{is_of, target_of};
ghost use Rattle.global_verdicts.specs.InForce.{found_under, is_authorised, opened_found};

use entry_rules::Fault;
use git_object::ObjectId;
use global_rules::{FoundFile, find_file};
use judging::EntryVerdict;
use keeper_api::{Keeper, KeeperFault};
use policy_epochs::Policy;
use rsl_chain::{Entry, EntryBody};
use std::alloc::Global;

fn is_authorised(verdict: &EntryVerdict<Fault>) -> bool
    ensures { result ≡ is_authorised verdict.now }
{
    match verdict {
        EntryVerdict::Authorised => true,
        EntryVerdict::Refused(_) => false,
        EntryVerdict::Noted => false,
    }
}

fn is_policys(entry: &Entry) -> bool
    ensures { result ≡ is_of entry.now.body policy_name }
{
    match &entry.body {
        EntryBody::Reference { name, target: _ } => name.is_policy(),
        EntryBody::Annotation {
            ids: _,
            skip: _,
            message: _,
        } => false,
    }
}

// Whether an entry of which this is answered brings its policy into force.
fn opens(entry: &Entry, verdict: &EntryVerdict<Fault>) -> bool
    ensures { result ≡ (is_of entry.now.body policy_name && is_authorised verdict.now) }
{
    is_policys(entry) && is_authorised(verdict)
}

/// The target that an entry records.
pub(crate) fn target_of(entry: &Entry) -> ObjectId
    ensures { result ≡ target_of entry.now.body }
{
    match &entry.body {
        EntryBody::Reference { name: _, target } => *target,
        EntryBody::Annotation {
            ids: _,
            skip: _,
            message: _,
        } => ObjectId::zeros(),
    }
}

// What stands for the global rules in the tree of a target of a policy.
fn find_under<R: Keeper>(
    alloc: Global,
    keeper: &mut R,
    policy: Option<&Policy>,
    target: &ObjectId,
) -> Result<FoundFile, KeeperFault>
    ensures found { IfOk result (λ found. (r : Repository) → R.content keeper.new ≡ Some r
        → found ≡ found_under r (option_copied policy.entry) target.now) }
    ensures same { Undisturbed R.Keeper keeper.old keeper.new }
    ensures cause { HasCause keeper_failed (R.faults keeper.old) (R.faults keeper.new) result }
{
    match policy {
        None => Ok(FoundFile::Absent),
        Some(policy) => find_file(alloc, keeper, &policy.root, target),
    }
}

/// What stands for the global rules of the policy that an entry brings into force, which then is this one, by what is
/// answered of the entry; None where it brings none.
pub(crate) fn opened_found<R: Keeper>(
    alloc: Global,
    keeper: &mut R,
    policy: Option<&Policy>,
    entry: &Entry,
    verdict: &EntryVerdict<Fault>,
) -> Result<Option<FoundFile>, KeeperFault>
    ensures found { IfOk result (λ opened. (r : Repository) → R.content keeper.new ≡ Some r
        → opened ≡ opened_found r (option_copied policy.entry) entry.now.body verdict.now) }
    ensures same { Undisturbed R.Keeper keeper.old keeper.new }
    ensures cause { HasCause keeper_failed (R.faults keeper.old) (R.faults keeper.new) result }
{
    if !opens(entry, verdict) {
        return Ok(None);
    }
    let target = target_of(entry);
    let found = find_under(alloc, keeper, policy, &target)?;
    Ok(Some(found))
}

/// What was opened takes the place of what stood.
pub(crate) fn put_found(file: &mut FoundFile, opened: Option<FoundFile>)
    ensures { file.new ≡ unwrap_or opened file.old }
{
    if let Some(found) = opened {
        *file = found;
    }
}
