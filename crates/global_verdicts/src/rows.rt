//! What is known of an entry, once it is judged by global rules.

ghost use Rattle.std.specs.Prelude.{◌≡◌, List, IfOk, Some};
ghost use Rattle.std.specs.Option.{option_copied};
ghost use Rattle.octets.specs.Causes.{HasCause};
ghost use Rattle.git_object.specs.Repository.{Repository};
ghost use Rattle.keeper_api.specs.Faults.{keeper_failed};
ghost use Rattle.keeper_api.specs.Undisturbed.{Undisturbed};
ghost use Rattle.rsl_chain.specs.Entries.{Taken, is_of};
ghost use Rattle.judging.specs.Logs.{from};
ghost use Rattle.entry_rules.specs.RealRules.{real_rules};
ghost use Rattle.verify_ref.specs.Following.{Follows};
ghost use Rattle.global_verdicts.specs.Rows.{IsUnder, change_by, is_judged};

use crate::in_force::target_of;
use git_object::{ObjectId, RefName};
use global_rules::{Change, FoundFile, GlobalWhy, why_of};
use judging::KeyIds;
use keeper_api::{Keeper, KeeperFault};
use octets::{Copied, Memory};
use policy_epochs::Policy;
use root_metadata::id_set;
use rsl_chain::{Entry, EntryBody};
use std::alloc::Global;
use verify_ref::Engine;

/// Whether an entry is the reference's that is judged, and why it breaks global rules.
#[derive(Drop)]
pub struct Row {
    pub own: bool,
    pub why: Option<GlobalWhy>,
}

/// Where a reference stands, by the entries that an engine took: zeros where nothing put it anywhere.
pub(crate) fn stands_at(engine: &Engine, name: &RefName) -> ObjectId
    ensures { (log : List Taken) → Follows log engine.now
        → result ≡ from (real_rules engine.now.rules.anchor) log name.now }
{
    engine.prior_target(name).unwrap_or(ObjectId::zeros())
}

/// Whether an entry of the reference is judged: those of the policy's own are not.
pub(crate) fn is_judged(name: &RefName, entry: &Entry) -> bool
    ensures { result ≡ is_judged name.now entry.now.body }
{
    is_own(name, entry) && !name.is_policy()
}

/// Whether an entry is the reference's.
pub(crate) fn is_own(name: &RefName, entry: &Entry) -> bool
    ensures { result ≡ is_of entry.now.body name.now }
{
    match &entry.body {
        EntryBody::Reference {
            name: other,
            target: _,
        } => other.text() == name.text(),
        EntryBody::Annotation {
            ids: _,
            skip: _,
            message: _,
        } => false,
    }
}

/// The change of a reference by an entry, with the keys that signed as a set.
pub(crate) fn change_of(
    alloc: Global,
    name: &RefName,
    from: &ObjectId,
    signers: &KeyIds,
    entry: &Entry,
) -> Result<Change, Memory>
    ensures { IfOk result (λ change. change ≡ change_by name.now from.now signers.now entry.now.body) }
{
    let name = name.copied()?;
    let signers = id_set(alloc, signers.as_slice())?;
    Ok(Change {
        name,
        from: *from,
        target: target_of(entry),
        signers,
    })
}

/// Why a change breaks the global rules under the policy in force.
pub(crate) fn why_under<R: Keeper>(
    alloc: Global,
    keeper: &mut R,
    policy: Option<&Policy>,
    file: &FoundFile,
    change: &Change,
) -> Result<Option<GlobalWhy>, KeeperFault>
    ensures why { IfOk result (λ why. (r : Repository) → R.content keeper.new ≡ Some r
        → IsUnder r (option_copied policy.entry) file.now change.now why) }
    ensures same { Undisturbed R.Keeper keeper.old keeper.new }
    ensures cause { HasCause keeper_failed (R.faults keeper.old) (R.faults keeper.new) result }
{
    match policy {
        None => Ok(None),
        Some(policy) => why_of(alloc, keeper, &policy.rules, file, change),
    }
}
