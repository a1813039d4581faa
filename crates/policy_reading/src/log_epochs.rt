//! Taking the entries of a log, one after the other.

ghost use Rattle.std.specs.Prelude.{◌≡◌, ◌≤◌, ◌+◌, List, IfErr, IfOk, OnOk, Some, sum_by};
ghost use Rattle.octets.specs.Causes.{HasCause};
ghost use Rattle.git_object.specs.Repository.{Repository};
ghost use Rattle.keeper_api.specs.Faults.{keeper_failed};
ghost use Rattle.keeper_api.specs.Undisturbed.{Undisturbed};
ghost use Rattle.rsl_chain.specs.declared.entries.Entry.{Entry};
ghost use Rattle.rsl_chain.specs.Logs.{IsBrokenAs, IsNamed, IsNoEntryAs, log_failed};
ghost use Rattle.rsl_chain.specs.Histories.{AreEntriesAt};
ghost use Rattle.policy_epochs.specs.Standing.{Found, Stands};
ghost use Rattle.policy_reading.specs.Policies.{policy_reads};
ghost use Rattle.policy_reading.specs.InForce.{HasEntries, HasEpochs, MissesEntry, StandsAt, Takes, TakesAt};
ghost use Rattle.policy_reading.specs.InForce.{epoch_fault};
ghost use Rattle.policy_reading.specs.Reading.{ReadsLog, entry_reads, taking_reads};

use crate::{extend, look};
use git_object::ObjectId;
use keeper_api::{Keeper, KeeperFault};
use known_signers::KnownSigners;
use policy_epochs::{EpochVerdict, Epochs, PolicyFault};
use root_metadata::KeyIds;
use rsl_chain::{Entry, EntryBody, Log, LogFault, read_entry};
use std::alloc::Global;

// Takes an entry into the epochs, where it is for the policy.
fn take_entry<R: Keeper>(
    alloc: Global,
    epochs: &mut Epochs,
    keeper: &mut R,
    known: &KnownSigners,
    entry: &Entry,
) -> Result<(), KeeperFault>
    ensures anchor { epochs.new.anchor ≡ epochs.old.anchor }
    ensures takes { OnOk result ((r : Repository) → R.content keeper.new ≡ Some r
        → Takes r entry.now epochs.old epochs.new) }
    ensures same { Undisturbed R.Keeper keeper.old keeper.new }
    ensures cause { HasCause keeper_failed (R.faults keeper.old) (R.faults keeper.new) result }
    ensures reads { (r : Repository) → R.content keeper.new ≡ Some r → R.reads keeper.new ≤ R.reads keeper.old
        + taking_reads r (Some entry.now) }
{
    match &entry.body {
        EntryBody::Reference { name, target } => {
            if !name.is_policy() {
                return Ok(());
            }
            match extend(alloc, epochs, keeper, known, target) {
                Ok(verdict) => {
                    drop(verdict);
                    Ok(())
                }
                Err(fault) => Err(fault),
            }
        }
        EntryBody::Annotation {
            ids: _,
            skip: _,
            message: _,
        } => Ok(()),
    }
}

// Takes the entry at an id into the epochs.
fn take_id<R: Keeper>(
    alloc: Global,
    epochs: &mut Epochs,
    keeper: &mut R,
    known: &KnownSigners,
    id: &ObjectId,
) -> Result<(), LogFault>
    ensures anchor { epochs.new.anchor ≡ epochs.old.anchor }
    ensures takes { OnOk result ((r : Repository) → R.content keeper.new ≡ Some r
        → TakesAt r id.now epochs.old epochs.new) }
    ensures broken { IfErr result (λ fault. (r : Repository) → R.content keeper.new ≡ Some r
        → IsNoEntryAs r id.now fault) }
    ensures named { IfErr result (IsNamed id.now) }
    ensures same { Undisturbed R.Keeper keeper.old keeper.new }
    ensures cause { HasCause log_failed (R.faults keeper.old) (R.faults keeper.new) result }
    ensures reads { (r : Repository) → R.content keeper.new ≡ Some r → R.reads keeper.new ≤ R.reads keeper.old
        + entry_reads r id.now }
{
    let entry = match read_entry(alloc, keeper, id) {
        Ok(entry) => entry,
        Err(fault) => return Err(fault),
    };
    match take_entry(alloc, epochs, keeper, known, &entry) {
        Ok(()) => Ok(()),
        Err(KeeperFault::Failed) => Err(LogFault::Failed),
        Err(KeeperFault::Memory) => Err(LogFault::Memory),
    }
}

// Takes the entries at these ids into epochs that have taken none.
fn take_ids<R: Keeper>(
    alloc: Global,
    epochs: &mut Epochs,
    keeper: &mut R,
    known: &KnownSigners,
    ids: &[ObjectId],
) -> Result<(), LogFault>
    requires { (checked : Found) → Stands epochs.old checked 0 }
    ensures anchor { epochs.new.anchor ≡ epochs.old.anchor }
    ensures stands { OnOk result ((r : Repository) → R.content keeper.new ≡ Some r → StandsAt r ids.now epochs.new) }
    ensures broken { IfErr result (λ fault. (r : Repository) → R.content keeper.new ≡ Some r
        → MissesEntry r ids.now fault) }
    ensures same { Undisturbed R.Keeper keeper.old keeper.new }
    ensures cause { HasCause log_failed (R.faults keeper.old) (R.faults keeper.new) result }
    ensures reads { (r : Repository) → R.content keeper.new ≡ Some r → R.reads keeper.new ≤ R.reads keeper.old
        + sum_by (entry_reads r) ids.now }
{
    'ids: for id in ids {
        match take_id(alloc, epochs, keeper, known, id) {
            Ok(()) => {}
            Err(fault) => return Err(fault),
        }
    }
    Ok(())
}

/// The epochs of the entries at these ids, oldest first; where ids of keys are given, the first policy's root role must
/// have exactly these. `Broken` comes exactly where no entry stands at one of the ids, and names the first such. Each
/// entry is read once, and the policy of each that is for the policy.
pub fn epochs_at<R: Keeper>(
    alloc: Global,
    keeper: &mut R,
    known: &KnownSigners,
    anchor: Option<KeyIds>,
    ids: &[ObjectId],
) -> Result<Epochs, LogFault>
    ensures anchor { IfOk result (λ epochs. epochs.anchor ≡ anchor) }
    ensures stands { IfOk result (λ epochs. (r : Repository) → R.content keeper.new ≡ Some r
        → StandsAt r ids.now epochs) }
    ensures broken { IfErr result (λ fault. (r : Repository) → R.content keeper.new ≡ Some r
        → MissesEntry r ids.now fault) }
    ensures same { Undisturbed R.Keeper keeper.old keeper.new }
    ensures cause { HasCause log_failed (R.faults keeper.old) (R.faults keeper.new) result }
    ensures reads { (r : Repository) → R.content keeper.new ≡ Some r → R.reads keeper.new ≤ R.reads keeper.old
        + sum_by (entry_reads r) ids.now }
{
    let mut epochs = Epochs::new(anchor);
    match take_ids(alloc, &mut epochs, keeper, known, ids) {
        Ok(()) => Ok(epochs),
        Err(fault) => {
            drop(epochs);
            Err(fault)
        }
    }
}

/// The epochs of a store's log. `Broken` comes exactly where the log breaks. Each entry is read twice, one at a time,
/// and the policy of each that is for the policy; the log takes 32 bytes for each.
pub fn load_epochs<R: Keeper>(
    alloc: Global,
    keeper: &mut R,
    anchor: Option<KeyIds>,
) -> Result<Epochs, LogFault>
    ensures anchor { IfOk result (λ epochs. epochs.anchor ≡ anchor) }
    ensures stands { IfOk result (λ epochs. (r : Repository) → R.content keeper.new ≡ Some r → HasEpochs r epochs) }
    ensures broken { IfErr result (λ fault. (r : Repository) → R.content keeper.new ≡ Some r → IsBrokenAs r fault) }
    ensures same { Undisturbed R.Keeper keeper.old keeper.new }
    ensures cause { HasCause log_failed (R.faults keeper.old) (R.faults keeper.new) result }
    ensures reads { OnOk result ((r : Repository) → R.content keeper.new ≡ Some r
        → ReadsLog r (R.reads keeper.old) (R.reads keeper.new)) }
{
    let log = match Log::load(alloc, keeper) {
        Ok(log) => log,
        Err(fault) => return Err(fault),
    };
    let known = KnownSigners::new();
    match epochs_at(alloc, keeper, &known, anchor, log.ids.as_slice()) {
        Ok(epochs) => Ok(epochs),
        Err(fault) => Err(fault),
    }
}

/// What keeps an entry for the policy, of this target, from being an epoch behind the entries at these ids. `Broken`
/// comes exactly where no entry stands at one of the ids, and names the first such.
pub fn epoch_fault<R: Keeper>(
    alloc: Global,
    keeper: &mut R,
    anchor: Option<KeyIds>,
    ids: &[ObjectId],
    target: &ObjectId,
) -> Result<Option<PolicyFault>, LogFault>
    ensures fault { IfOk result (λ fault. (r : Repository) → R.content keeper.new ≡ Some r → (entries : List Entry)
        → AreEntriesAt r ids.now entries → fault ≡ epoch_fault anchor r entries target.now) }
    ensures there { OnOk result ((r : Repository) → R.content keeper.new ≡ Some r → HasEntries r ids.now) }
    ensures broken { IfErr result (λ fault. (r : Repository) → R.content keeper.new ≡ Some r
        → MissesEntry r ids.now fault) }
    ensures same { Undisturbed R.Keeper keeper.old keeper.new }
    ensures cause { HasCause log_failed (R.faults keeper.old) (R.faults keeper.new) result }
    ensures reads { (r : Repository) → R.content keeper.new ≡ Some r → R.reads keeper.new ≤ R.reads keeper.old
        + (sum_by (entry_reads r) ids.now + policy_reads r target.now) }
{
    let known = KnownSigners::new();
    let epochs = match epochs_at(alloc, keeper, &known, anchor, ids) {
        Ok(epochs) => epochs,
        Err(fault) => return Err(fault),
    };
    let verdict = look(alloc, &epochs, keeper, &known, target);
    drop(epochs);
    match verdict {
        Ok(EpochVerdict::Opened) => Ok(None),
        Ok(EpochVerdict::Refused(fault)) => Ok(Some(fault)),
        Err(KeeperFault::Failed) => Err(LogFault::Failed),
        Err(KeeperFault::Memory) => Err(LogFault::Memory),
    }
}
