//! An engine that takes the entries behind those that it took.

ghost use Rattle.std.specs.Prelude.{◌≡◌, ◌≤◌, ◌+◌, [], List, Some, true, drop, IfErr, IfOk, OnErr, OnOk};
ghost use Rattle.octets.specs.Causes.{HasCause};
ghost use Rattle.git_object.specs.Repository.{Repository};
ghost use Rattle.keeper_api.specs.Undisturbed.{Undisturbed};
ghost use Rattle.rsl_chain.specs.Entries.{Taken};
ghost use Rattle.rsl_chain.specs.Logs.{IsNamed, entry_at, log_failed};
ghost use Rattle.rsl_chain.specs.declared.entries.Entry.{Entry};
ghost use Rattle.entry_rules.specs.Learning.{AreKnownIn};
ghost use Rattle.judging.specs.Engines.{taken};
ghost use Rattle.judging.specs.Reads.{is_bounded};
ghost use Rattle.entry_rules.specs.RealRules.{real_rules};
ghost use Rattle.verify_ref.specs.Following.{Follows};
ghost use Rattle.verify_ref.specs.Logs.{AreEntries, IsAstray};
ghost use Rattle.verify_ref.specs.Reading.{extending_reads, reads_behind};
ghost use Rattle.pushes.specs.Steps.{ids_of};
ghost use Rattle.desk_core.specs.Lagging.{AreBoundedBehind, BreaksBehind, Judges, TakesAll, TakesAt, TakesFront};
ghost use Rattle.desk_core.specs.Lagging.{ids_behind};

use git_object::{ObjectId, RefName};
use keeper_api::{Keeper, KeeperFault};
use pushes::Row;
use rsl_chain::{LogFault, read_entry};
use std::alloc::Global;
use verify_ref::{Engine, RefVerdict};

// The rows that an engine has not taken.
fn rows_behind<'r>(rows: &'r [Row], engine: &Engine) -> &'r [Row]
    ensures { result.now ≡ drop (taken engine.now.entries) rows.now }
{
    let count = engine.len();
    if count > rows.len() as u64 {
        return rows.split_at(rows.len()).1;
    }
    rows.split_at(count as usize).1
}

// Takes the entry at an id, where it is the next.
fn take_one<R: Keeper>(
    alloc: Global,
    keeper: &mut R,
    engine: &mut Engine,
    id: &ObjectId,
) -> Result<(), LogFault>
    requires known { (r : Repository) → R.content keeper.old ≡ Some r → AreKnownIn r engine.old.known }
    ensures takes { OnOk result ((r : Repository) (log : List Taken) → R.content keeper.new ≡ Some r
        → Follows log engine.old → TakesAt r log id.now engine.new) }
    ensures refused { OnErr result ((log : List Taken) → Follows log engine.old → Follows log engine.new) }
    ensures astray { IfErr result (λ fault. (r : Repository) → R.content keeper.new ≡ Some r
        → IsAstray r engine.old.entries id.now fault) }
    ensures named { IfErr result (IsNamed id.now) }
    ensures rules { engine.new.rules ≡ engine.old.rules }
    ensures known { (r : Repository) → R.content keeper.new ≡ Some r → AreKnownIn r engine.new.known }
    ensures same { Undisturbed R.Keeper keeper.old keeper.new }
    ensures cause { HasCause log_failed (R.faults keeper.old) (R.faults keeper.new) result }
    ensures reads { OnOk result ((r : Repository) (log : List Taken) (entry : Entry) → R.content keeper.new ≡ Some r
        → Follows log engine.old → entry_at r id.now ≡ Some entry
        → is_bounded (real_rules engine.old.rules.anchor) log (record { entry = entry; repository = r }) ≡ true
        → R.reads keeper.new ≤ R.reads keeper.old + (1 + extending_reads (real_rules engine.old.rules.anchor) log
        (record { entry = entry; repository = r }))) }
{
    let entry = read_entry(alloc, keeper, id)?;
    if !engine.comes_next(&entry) {
        return Err(LogFault::Broken { id: *id });
    }
    match engine.extend(alloc, keeper, &entry) {
        Ok(_) => Ok(()),
        Err(KeeperFault::Failed) => Err(LogFault::Failed),
        Err(KeeperFault::Memory) => Err(LogFault::Memory),
    }
}

// Takes the entries of rows, one after the other. Those before a refusal stay taken.
fn take_all<R: Keeper>(
    alloc: Global,
    keeper: &mut R,
    engine: &mut Engine,
    rows: &[Row],
) -> Result<(), LogFault>
    requires known { (r : Repository) → R.content keeper.old ≡ Some r → AreKnownIn r engine.old.known }
    ensures takes { OnOk result ((r : Repository) (log : List Taken) → R.content keeper.new ≡ Some r
        → Follows log engine.old → TakesAll r log (ids_of rows.now) engine.new) }
    ensures front { OnErr result ((r : Repository) (log : List Taken) → R.content keeper.new ≡ Some r
        → Follows log engine.old → TakesFront r log (ids_of rows.now) engine.new) }
    ensures broken { IfErr result (λ fault. (r : Repository) (log : List Taken) → R.content keeper.new ≡ Some r
        → Follows log engine.old → BreaksBehind r log (ids_of rows.now) fault) }
    ensures rules { engine.new.rules ≡ engine.old.rules }
    ensures same { Undisturbed R.Keeper keeper.old keeper.new }
    ensures cause { HasCause log_failed (R.faults keeper.old) (R.faults keeper.new) result }
    ensures reads { OnOk result ((r : Repository) (log more : List Taken) → R.content keeper.new ≡ Some r
        → Follows log engine.old → AreEntries r (ids_of rows.now) more
        → AreBoundedBehind (real_rules engine.old.rules.anchor) log more
        → R.reads keeper.new ≤ R.reads keeper.old + reads_behind (real_rules engine.old.rules.anchor) log more) }
    ensures free { rows.now ≡ [] → R.reads keeper.new ≡ R.reads keeper.old }
{
    'rows: for row in rows {
        match take_one(alloc, keeper, engine, &row.id) {
            Ok(()) => {}
            Err(fault) => return Err(fault),
        }
    }
    Ok(())
}

/// The verdict on a reference by the entries of rows, of which an engine took the first, and by its value in the store.
/// The engine takes the others now.
pub(crate) fn verdict_behind<R: Keeper>(
    alloc: Global,
    keeper: &mut R,
    rows: &[Row],
    engine: &mut Engine,
    name: &RefName,
) -> Result<RefVerdict, LogFault>
    ensures judges { IfOk result (λ verdict. (r : Repository) (log : List Taken) → R.content keeper.new ≡ Some r
        → Follows log engine.old → Judges r log (ids_behind rows.now engine.old) engine.new name.now verdict) }
    ensures front { OnErr result ((r : Repository) (log : List Taken) → R.content keeper.new ≡ Some r
        → Follows log engine.old → TakesFront r log (ids_behind rows.now engine.old) engine.new) }
    ensures broken { IfErr result (λ fault. (r : Repository) (log : List Taken) → R.content keeper.new ≡ Some r
        → Follows log engine.old → BreaksBehind r log (ids_behind rows.now engine.old) fault) }
    ensures rules { engine.new.rules ≡ engine.old.rules }
    ensures same { Undisturbed R.Keeper keeper.old keeper.new }
    ensures cause { HasCause log_failed (R.faults keeper.old) (R.faults keeper.new) result }
    ensures reads { OnOk result ((r : Repository) (log more : List Taken) → R.content keeper.new ≡ Some r
        → Follows log engine.old → AreEntries r (ids_behind rows.now engine.old) more
        → AreBoundedBehind (real_rules engine.old.rules.anchor) log more
        → R.reads keeper.new ≤ R.reads keeper.old + reads_behind (real_rules engine.old.rules.anchor) log more) }
    ensures free { ids_behind rows.now engine.old ≡ [] → R.reads keeper.new ≡ R.reads keeper.old }
{
    engine.forget(alloc);
    let behind = rows_behind(rows, engine);
    match take_all(alloc, keeper, engine, behind) {
        Ok(()) => {}
        Err(fault) => return Err(fault),
    }
    match engine.verdict(alloc, keeper, name) {
        Ok(verdict) => Ok(verdict),
        Err(KeeperFault::Failed) => Err(LogFault::Failed),
        Err(KeeperFault::Memory) => Err(LogFault::Memory),
    }
}
