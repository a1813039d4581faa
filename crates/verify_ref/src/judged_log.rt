//! The engine over the entries of a log in a store.

ghost use Rattle.std.specs.Prelude.{◌≡◌, ◌≤◌, ◌+◌, [], List, Some, true, not, IfErr};
ghost use Rattle.std.specs.Prelude.{IfOk, OnOk};
ghost use Rattle.octets.specs.Causes.{HasCause};
ghost use Rattle.git_object.specs.Repository.{Repository};
ghost use Rattle.keeper_api.specs.Undisturbed.{Undisturbed};
ghost use Rattle.rsl_chain.specs.Entries.{Taken};
ghost use Rattle.rsl_chain.specs.declared.entries.Entry.{Entry};
ghost use Rattle.rsl_chain.specs.Logs.{IsLogOf, IsNamed, IsUnbroken, entry_at, log_failed};
ghost use Rattle.judging.specs.Engines.{Stands, taken};
ghost use Rattle.judging.specs.Reads.{is_bounded};
ghost use Rattle.entry_rules.specs.Learning.{AreKnownIn};
ghost use Rattle.entry_rules.specs.RealRules.{real_rules};
ghost use Rattle.verify_ref.specs.Logs.{AreEntries, BreaksAt, IsAstray, TakesNext, comes_next};
ghost use Rattle.verify_ref.specs.Reading.{AreBounded, extending_reads, judging_reads};

use crate::next_entry::{LogEngine, comes_next, extend_by};
use entry_rules::{EntryRules, Learned};
use git_object::ObjectId;
use keeper_api::{Keeper, KeeperFault};
use rsl_chain::{Entry, LogFault, read_entry};
use std::alloc::Global;

// Takes the entry at an id, where it is the next.
fn take<R: Keeper>(
    alloc: Global,
    keeper: &mut R,
    rules: &EntryRules,
    known: &mut Learned,
    engine: &mut LogEngine,
    id: &ObjectId,
) -> Result<(), LogFault>
    requires known { (r : Repository) → R.content keeper.old ≡ Some r → AreKnownIn r known.old }
    ensures taken { OnOk result ((r : Repository) → R.content keeper.new ≡ Some r
        → TakesNext (real_rules rules.now.anchor) r id.now engine.old engine.new) }
    ensures broken { IfErr result (λ fault. (r : Repository) → R.content keeper.new ≡ Some r
        → IsAstray r engine.old id.now fault) }
    ensures named { IfErr result (IsNamed id.now) }
    ensures known { (r : Repository) → R.content keeper.new ≡ Some r → AreKnownIn r known.new }
    ensures same { Undisturbed R.Keeper keeper.old keeper.new }
    ensures cause { HasCause log_failed (R.faults keeper.old) (R.faults keeper.new) result }
    ensures reads { OnOk result ((r : Repository) (log : List Taken) (entry : Entry) → R.content keeper.new ≡ Some r
        → Stands (real_rules rules.now.anchor) log engine.old → entry_at r id.now ≡ Some entry
        → is_bounded (real_rules rules.now.anchor) log (record { entry = entry; repository = r }) ≡ true
        → R.reads keeper.new ≤ R.reads keeper.old
        + (1 + extending_reads (real_rules rules.now.anchor) log (record { entry = entry; repository = r }))) }
{
    let entry = read_entry(alloc, keeper, id)?;
    if !comes_next(engine, &entry) {
        return Err(LogFault::Broken { id: *id });
    }
    match extend_by(alloc, keeper, rules, known, engine, &entry) {
        Ok(_) => Ok(()),
        Err(KeeperFault::Failed) => Err(LogFault::Failed),
        Err(KeeperFault::Memory) => Err(LogFault::Memory),
    }
}

// Takes the entries at these ids, one after the other, by an engine that took none.
fn take_all<R: Keeper>(
    alloc: Global,
    keeper: &mut R,
    rules: &EntryRules,
    engine: &mut LogEngine,
    ids: &[ObjectId],
) -> Result<(), LogFault>
    requires { Stands (real_rules rules.now.anchor) [] engine.old }
    ensures stands { OnOk result ((r : Repository) → R.content keeper.new ≡ Some r → (log : List Taken)
        × AreEntries r ids.now log × Stands (real_rules rules.now.anchor) log engine.new) }
    ensures unbroken { IfErr result (λ fault. (r : Repository) → R.content keeper.new ≡ Some r → IsLogOf r ids.now
        → IsUnbroken fault) }
    ensures broken { IfErr result (λ fault. (r : Repository) → R.content keeper.new ≡ Some r → BreaksAt r ids.now fault) }
    ensures same { Undisturbed R.Keeper keeper.old keeper.new }
    ensures cause { HasCause log_failed (R.faults keeper.old) (R.faults keeper.new) result }
    ensures reads { OnOk result ((r : Repository) (log : List Taken) → R.content keeper.new ≡ Some r
        → AreEntries r ids.now log → AreBounded (real_rules rules.now.anchor) log
        → R.reads keeper.new ≤ R.reads keeper.old + judging_reads (real_rules rules.now.anchor) log) }
{
    let mut known = Learned::new(alloc);
    'ids: for id in ids {
        match take(alloc, keeper, rules, &mut known, engine, id) {
            Ok(()) => {}
            Err(fault) => return Err(fault),
        }
    }
    Ok(())
}

/// The engine that took the entries at these ids, one after the other. `Broken` names the first of the ids at which no
/// entry stands that comes next, by its number and with an id of its own. Where the ids are the store's log, it does
/// not come. Each entry is read once; where no target of one is broken, nothing more is read than what takes and judges
/// them.
pub fn judge_entries<R: Keeper>(
    alloc: Global,
    keeper: &mut R,
    rules: &EntryRules,
    ids: &[ObjectId],
) -> Result<LogEngine, LogFault>
    ensures stands { IfOk result (λ engine. (r : Repository) → R.content keeper.new ≡ Some r → (log : List Taken)
        × AreEntries r ids.now log × Stands (real_rules rules.now.anchor) log engine) }
    ensures unbroken { IfErr result (λ fault. (r : Repository) → R.content keeper.new ≡ Some r → IsLogOf r ids.now
        → IsUnbroken fault) }
    ensures broken { IfErr result (λ fault. (r : Repository) → R.content keeper.new ≡ Some r → BreaksAt r ids.now fault) }
    ensures same { Undisturbed R.Keeper keeper.old keeper.new }
    ensures cause { HasCause log_failed (R.faults keeper.old) (R.faults keeper.new) result }
    ensures reads { OnOk result ((r : Repository) (log : List Taken) → R.content keeper.new ≡ Some r
        → AreEntries r ids.now log → AreBounded (real_rules rules.now.anchor) log
        → R.reads keeper.new ≤ R.reads keeper.old + judging_reads (real_rules rules.now.anchor) log) }
{
    let mut engine = LogEngine::new(alloc);
    match take_all(alloc, keeper, rules, &mut engine, ids) {
        Ok(()) => Ok(engine),
        Err(fault) => Err(fault),
    }
}
