//! The verdict on a reference.

ghost use Rattle.std.specs.Prelude.{◌≡◌, ◌≤◌, ◌+◌, List, Some, IfOk, OnOk};
ghost use Rattle.octets.specs.Causes.{HasCause};
ghost use Rattle.git_object.specs.Repository.{Repository, value_of};
ghost use Rattle.keeper_api.specs.Faults.{keeper_failed};
ghost use Rattle.keeper_api.specs.Undisturbed.{Undisturbed};
ghost use Rattle.rsl_chain.specs.Entries.{Taken};
ghost use Rattle.judging.specs.Engines.{Stands};
ghost use Rattle.judging.specs.Rules.{Rules};
ghost use Rattle.judging.specs.Verdicts.{IsJudged};
ghost use Rattle.policy_epochs.specs.declared.policies.Policy.{Policy};
ghost use Rattle.entry_rules.specs.declared.faults.Fault.{Fault};
ghost use Rattle.rsl_chain.specs.Logs.{IsLogOf, log_failed};
ghost use Rattle.entry_rules.specs.RealRules.{real_rules};
ghost use Rattle.verify_ref.specs.Logs.{AreEntries};
ghost use Rattle.verify_ref.specs.Reading.{AreBounded, ReadsVerdict, judging_reads};
ghost use Rattle.verify_ref.specs.Verdicts.{Answers};

use crate::judged_log::judge_entries;
use crate::next_entry::LogEngine;
use entry_rules::{EntryRules, Fault};
use git_object::{ObjectId, RefName};
use judging::Verdict;
use keeper_api::{Keeper, KeeperFault};
use root_metadata::KeyIds;
use rsl_chain::{Log, LogFault};
use std::alloc::Global;

/// The verdict on a reference, by the policies of the log.
pub type RefVerdict = Verdict<Fault>;

// The value of a reference: its id, or zeros where it is not there.
fn value<R: Keeper>(alloc: Global, keeper: &mut R, name: &RefName) -> Result<ObjectId, KeeperFault>
    ensures answer { IfOk result (λ id. (r : Repository) → R.content keeper.new ≡ Some r → id ≡ value_of r name.now) }
    ensures same { Undisturbed R.Keeper keeper.old keeper.new }
    ensures cause { HasCause keeper_failed (R.faults keeper.old) (R.faults keeper.new) result }
    ensures reads { R.reads keeper.new ≡ R.reads keeper.old }
{
    match keeper.read_ref(alloc, name) {
        Ok(found) => Ok(found.unwrap_or(ObjectId::zeros())),
        Err(fault) => Err(fault),
    }
}

/// The verdict on a reference by the entries that an engine took.
pub(crate) fn conclude<R: Keeper>(
    alloc: Global,
    keeper: &mut R,
    engine: &LogEngine,
    name: &RefName,
) -> Result<RefVerdict, KeeperFault>
    ensures judged { IfOk result (λ verdict. (r : Repository) → R.content keeper.new ≡ Some r
        → (rules : Rules Policy Fault) (log : List Taken) → Stands rules log engine.now
        → IsJudged rules log name.now (value_of r name.now) verdict) }
    ensures same { Undisturbed R.Keeper keeper.old keeper.new }
    ensures cause { HasCause keeper_failed (R.faults keeper.old) (R.faults keeper.new) result }
    ensures reads { R.reads keeper.new ≡ R.reads keeper.old }
{
    let kept = value(alloc, keeper, name)?;
    let verdict = engine.verdict(name, &kept)?;
    Ok(verdict)
}

// The verdict on a reference by the entries at these ids.
fn judge_ids<R: Keeper>(
    alloc: Global,
    keeper: &mut R,
    rules: &EntryRules,
    ids: &[ObjectId],
    name: &RefName,
) -> Result<RefVerdict, LogFault>
    ensures answers { (r : Repository) → R.content keeper.new ≡ Some r → IsLogOf r ids.now
        → Answers r name.now rules.now.anchor result }
    ensures same { Undisturbed R.Keeper keeper.old keeper.new }
    ensures cause { HasCause log_failed (R.faults keeper.old) (R.faults keeper.new) result }
    ensures reads { OnOk result ((r : Repository) (log : List Taken) → R.content keeper.new ≡ Some r
        → AreEntries r ids.now log → AreBounded (real_rules rules.now.anchor) log
        → R.reads keeper.new ≤ R.reads keeper.old + judging_reads (real_rules rules.now.anchor) log) }
{
    let engine = match judge_entries(alloc, keeper, rules, ids) {
        Ok(engine) => engine,
        Err(fault) => return Err(fault),
    };
    match conclude(alloc, keeper, &engine, name) {
        Ok(verdict) => Ok(verdict),
        Err(KeeperFault::Failed) => Err(LogFault::Failed),
        Err(KeeperFault::Memory) => Err(LogFault::Memory),
    }
}

/// The verdict on a reference of the repository that the store holds: each entry of the log is judged in it, under the
/// policy in force at its number, and the verdict is that of the reference's entries and of its value. Where ids are
/// given, the first policy must have exactly their keys. `Broken` comes exactly where the log is no chain, and names
/// the commit at which it breaks. The store is as before. Each entry is read twice, once to find the log and once to
/// take it; where no target of an entry is broken, nothing more is read than what takes and judges them.
pub fn verify<R: Keeper>(
    alloc: Global,
    keeper: &mut R,
    name: &RefName,
    anchor: Option<KeyIds>,
) -> Result<RefVerdict, LogFault>
    ensures answers { (r : Repository) → R.content keeper.new ≡ Some r → Answers r name.now anchor result }
    ensures same { Undisturbed R.Keeper keeper.old keeper.new }
    ensures cause { HasCause log_failed (R.faults keeper.old) (R.faults keeper.new) result }
    ensures reads { OnOk result ((r : Repository) → R.content keeper.new ≡ Some r
        → ReadsVerdict anchor r (R.reads keeper.old) (R.reads keeper.new)) }
{
    let rules = EntryRules::new(anchor);
    match Log::load(alloc, keeper) {
        Ok(log) => judge_ids(alloc, keeper, &rules, log.ids.as_slice(), name),
        Err(fault) => Err(fault),
    }
}
