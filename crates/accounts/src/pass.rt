//! Judging a log in one pass, and keeping what is known of each entry.

ghost use Rattle.std.specs.Prelude.{◌≡◌, ◌≤◌, ◌+◌, ◌-◌, ◌++◌, ◌∷◌, [], ℕ, List, Some, take, true, false};
ghost use Rattle.std.specs.Prelude.{IfErr, IfOk, OnOk};
ghost use Rattle.std.specs.List.{AllByRecursion};
ghost use Rattle.octets.specs.Causes.{HasCause};
ghost use Rattle.git_object.specs.Repository.{Repository};
ghost use Rattle.keeper_api.specs.Undisturbed.{Undisturbed};
ghost use Rattle.rsl_chain.specs.Entries.{Taken};
ghost use Rattle.rsl_chain.specs.declared.entries.Entry.{Entry};
ghost use Rattle.rsl_chain.specs.Logs.{IsLogOf, IsUnbroken, entry_at, log_failed};
ghost use Rattle.entry_rules.specs.Learning.{AreKnownIn};
ghost use Rattle.judging.specs.Engines.{has_taken, taken};
ghost use Rattle.judging.specs.Reads.{is_bounded};
ghost use Rattle.entry_rules.specs.RealRules.{real_rules};
ghost use Rattle.verify_ref.specs.Following.{Follows};
ghost use Rattle.verify_ref.specs.Logs.{AreEntries, IsAstray};
ghost use Rattle.verify_ref.specs.Reading.{AreBounded, ReadsVerdict, extending_reads, judging_reads};
ghost use Rattle.verify_ref.specs.Verdicts.{IsRefusal};
ghost use Rattle.accounts.specs.Fronts.{IsJudgedBefore, ReadsBefore};
ghost use Rattle.accounts.specs.Judging.{IsJudgedLog, IsOwn, JudgesNext, StandsFor};

use crate::JudgedLog;
use crate::finding::{after_of, before_of};
use crate::rows::{from_of, next_attested, next_epoch, opens, prior_of};
use account_lines::EntryRow;
use entry_rules::Fault;
use git_object::ObjectId;
use judged_logs::{ByWhom, open_to};
use keeper_api::{Keeper, KeeperFault};
use octets::Items;
use policy_changes::LogNames;
use policy_epochs::Policy;
use root_metadata::KeyIds;
use rsl_chain::{Entry, Log, LogFault, read_entry};
use std::alloc::Global;
use verify_ref::Engine;

// Judges the next entry, and keeps what is known of it.
fn judge_entry<R: Keeper>(
    alloc: Global,
    keeper: &mut R,
    judged: &mut JudgedLog,
    entry: &Entry,
) -> Result<(), LogFault>
    requires next { entry.now.number ≡ taken judged.old.engine.entries + 1 }
    requires fresh { has_taken judged.old.engine.entries entry.now.id ≡ false }
    requires known { (r : Repository) → R.content keeper.old ≡ Some r → AreKnownIn r judged.old.engine.known }
    ensures stands { OnOk result ((r : Repository) → R.content keeper.new ≡ Some r
        → (log : List Taken) → StandsFor log judged.old
        → StandsFor (log ++ record { entry = entry.now; repository = r } ∷ []) judged.new) }
    ensures unbroken { IfErr result IsUnbroken }
    ensures rules { judged.new.engine.rules ≡ judged.old.engine.rules }
    ensures known { (r : Repository) → R.content keeper.new ≡ Some r → AreKnownIn r judged.new.engine.known }
    ensures same { Undisturbed R.Keeper keeper.old keeper.new }
    ensures cause { HasCause log_failed (R.faults keeper.old) (R.faults keeper.new) result }
    ensures reads { OnOk result ((r : Repository) (log : List Taken) → R.content keeper.new ≡ Some r
        → Follows log judged.old.engine
        → is_bounded (real_rules judged.old.engine.rules.anchor) log (record { entry = entry.now; repository = r })
        ≡ true
        → R.reads keeper.new ≤ R.reads keeper.old + extending_reads (real_rules judged.old.engine.rules.anchor) log
        (record { entry = entry.now; repository = r })) }
{
    let entries = judged.engine.entries();
    let prior = prior_of(entries, entry);
    let from = from_of(entries, entry);
    let numbers = open_to(alloc, entries, entry)?;
    let before = before_of(alloc, judged.engine.policy(), entry, judged.attested)?;
    let epoch = judged.epoch;
    let verdict = match judged.engine.extend(alloc, keeper, entry) {
        Ok(verdict) => verdict,
        Err(KeeperFault::Failed) => return Err(LogFault::Failed),
        Err(KeeperFault::Memory) => return Err(LogFault::Memory),
    };
    let opens = opens(entry, &verdict);
    judged.epoch = next_epoch(epoch, opens, entry.number);
    let policy = judged.engine.policy();
    let signers = judged.engine.signers();
    let after = after_of(alloc, policy, signers, entry, &before, opens)?;
    judged
        .later
        .take(judged.engine.entries(), entry, numbers.as_slice())?;
    judged.attested = next_attested(judged.attested, entry);
    judged.names.take(entry)?;
    judged.rows.push(EntryRow {
        id: entry.id,
        epoch,
        prior,
        from,
        signed: after.signed,
        signers: after.signers,
        persons: after.persons,
        verdict,
        changed: after.changed,
    })?;
    Ok(())
}

// Judges the entry at an id, where it is the next.
fn take<R: Keeper>(
    alloc: Global,
    keeper: &mut R,
    judged: &mut JudgedLog,
    id: &ObjectId,
) -> Result<(), LogFault>
    requires known { (r : Repository) → R.content keeper.old ≡ Some r → AreKnownIn r judged.old.engine.known }
    ensures taken { OnOk result ((r : Repository) → R.content keeper.new ≡ Some r
        → JudgesNext r id.now (λ log. StandsFor log judged.old) (λ log. StandsFor log judged.new)) }
    ensures broken { IfErr result (λ fault. (r : Repository) → R.content keeper.new ≡ Some r
        → IsAstray r judged.old.engine.entries id.now fault) }
    ensures rules { judged.new.engine.rules ≡ judged.old.engine.rules }
    ensures known { (r : Repository) → R.content keeper.new ≡ Some r → AreKnownIn r judged.new.engine.known }
    ensures same { Undisturbed R.Keeper keeper.old keeper.new }
    ensures cause { HasCause log_failed (R.faults keeper.old) (R.faults keeper.new) result }
    ensures reads { OnOk result ((r : Repository) (log : List Taken) (entry : Entry) → R.content keeper.new ≡ Some r
        → Follows log judged.old.engine → entry_at r id.now ≡ Some entry
        → is_bounded (real_rules judged.old.engine.rules.anchor) log (record { entry = entry; repository = r })
        ≡ true
        → R.reads keeper.new ≤ R.reads keeper.old
        + (1 + extending_reads (real_rules judged.old.engine.rules.anchor) log
        (record { entry = entry; repository = r }))) }
{
    let entry = read_entry(alloc, keeper, id)?;
    if !judged.engine.comes_next(&entry) {
        return Err(LogFault::Broken { id: *id });
    }
    match judge_entry(alloc, keeper, judged, &entry) {
        Ok(()) => Ok(()),
        Err(fault) => Err(fault),
    }
}

// Judges the entries at these ids, which are a log, one after the other.
fn take_all<R: Keeper>(
    alloc: Global,
    keeper: &mut R,
    judged: &mut JudgedLog,
    ids: &[ObjectId],
) -> Result<(), LogFault>
    requires none { StandsFor [] judged.old }
    requires known { (r : Repository) → R.content keeper.old ≡ Some r → AreKnownIn r judged.old.engine.known }
    ensures stands { OnOk result ((r : Repository) → R.content keeper.new ≡ Some r → (log : List Taken)
        × AreEntries r ids.now log × AllByRecursion (IsOwn r) log × StandsFor log judged.new) }
    ensures unbroken { IfErr result (λ fault. (r : Repository) → R.content keeper.new ≡ Some r
        → (rest : List (List ℕ)) → IsLogOf r (ids.now ++ rest) → IsUnbroken fault) }
    ensures rules { judged.new.engine.rules ≡ judged.old.engine.rules }
    ensures same { Undisturbed R.Keeper keeper.old keeper.new }
    ensures cause { HasCause log_failed (R.faults keeper.old) (R.faults keeper.new) result }
    ensures reads { OnOk result ((r : Repository) (log : List Taken) → R.content keeper.new ≡ Some r
        → AreEntries r ids.now log → AreBounded (real_rules judged.old.engine.rules.anchor) log
        → R.reads keeper.new ≤ R.reads keeper.old + judging_reads (real_rules judged.old.engine.rules.anchor) log) }
{
    'ids: for id in ids {
        match take(alloc, keeper, judged, id) {
            Ok(()) => {}
            Err(fault) => return Err(fault),
        }
    }
    Ok(())
}

// A log of no entry.
fn unjudged(alloc: Global, anchor: Option<KeyIds>) -> JudgedLog
    ensures none { StandsFor [] result }
    ensures anchor { result.engine.rules.anchor ≡ anchor }
    ensures known { (r : Repository) → AreKnownIn r result.engine.known }
{
    JudgedLog {
        engine: Engine::new(alloc, anchor),
        epoch: None,
        attested: None,
        names: LogNames::new(alloc),
        rows: Items::new(alloc),
        later: ByWhom::new::<Policy, Fault>(alloc),
    }
}

/// The log of the store's repository, each entry judged in it, under the policy in force at its number. Where ids are
/// given, the first policy must have exactly their keys. `Broken` comes exactly where the log is no chain, and names
/// the commit at which it breaks. The store is as before. Each entry is read twice, once to find the log and once to
/// take it; where no target of an entry is broken, nothing more is read than what judges them.
pub fn judge_log<R: Keeper>(
    alloc: Global,
    keeper: &mut R,
    anchor: Option<KeyIds>,
) -> Result<JudgedLog, LogFault>
    ensures judged { IfOk result (λ judged. (r : Repository) → R.content keeper.new ≡ Some r
        → IsJudgedLog anchor r judged) }
    ensures broken { IfErr result (λ fault. (r : Repository) → R.content keeper.new ≡ Some r
        → IsRefusal r fault) }
    ensures same { Undisturbed R.Keeper keeper.old keeper.new }
    ensures cause { HasCause log_failed (R.faults keeper.old) (R.faults keeper.new) result }
    ensures reads { OnOk result ((r : Repository) → R.content keeper.new ≡ Some r
        → ReadsVerdict anchor r (R.reads keeper.old) (R.reads keeper.new)) }
{
    let log = Log::load(alloc, keeper)?;
    let mut judged = unjudged(alloc, anchor);
    match take_all(alloc, keeper, &mut judged, log.ids.as_slice()) {
        Ok(()) => Ok(judged),
        Err(fault) => Err(fault),
    }
}

// How many numbers from 1 on are below a number.
fn below(number: u64) -> u64
    ensures { result ≡ number - 1 }
{
    if number == 0 { 0 } else { number - 1 }
}

// So many of the ids, or all where there are fewer.
fn front_of(ids: &[ObjectId], count: u64) -> &[ObjectId]
    ensures { result.now ≡ take count ids.now }
{
    let (front, _) = ids.split_at(ids.len().min(count as usize));
    front
}

/// The entries of the store's log before a number, or all where there are fewer, judged as `judge_log` judges the
/// whole: the policy in force behind them is that under which the entry of this number is judged. `Broken` comes
/// exactly where the whole log is no chain. It reads the whole log once to find it, and those entries once more, and of
/// the trees and files what judges them.
pub fn judge_before<R: Keeper>(
    alloc: Global,
    keeper: &mut R,
    anchor: Option<KeyIds>,
    number: u64,
) -> Result<JudgedLog, LogFault>
    ensures judged { IfOk result (λ judged. (r : Repository) → R.content keeper.new ≡ Some r
        → IsJudgedBefore anchor r number judged) }
    ensures broken { IfErr result (λ fault. (r : Repository) → R.content keeper.new ≡ Some r
        → IsRefusal r fault) }
    ensures same { Undisturbed R.Keeper keeper.old keeper.new }
    ensures cause { HasCause log_failed (R.faults keeper.old) (R.faults keeper.new) result }
    ensures reads { OnOk result ((r : Repository) → R.content keeper.new ≡ Some r
        → ReadsBefore anchor r number (R.reads keeper.old) (R.reads keeper.new)) }
{
    let log = Log::load(alloc, keeper)?;
    let mut judged = unjudged(alloc, anchor);
    let front = front_of(log.ids.as_slice(), below(number));
    match take_all(alloc, keeper, &mut judged, front) {
        Ok(()) => Ok(judged),
        Err(fault) => Err(fault),
    }
}
