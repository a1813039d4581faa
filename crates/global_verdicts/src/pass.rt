//! Judging a log in one pass by global rules, and keeping what is known of each entry.

ghost use Rattle.std.specs.Prelude.{◌≡◌, ◌+◌, ◌++◌, ◌∷◌, [], List, Some, false, IfErr, IfOk, OnOk};
ghost use Rattle.octets.specs.Causes.{HasCause};
ghost use Rattle.git_object.specs.Repository.{Repository};
ghost use Rattle.keeper_api.specs.Faults.{keeper_failed};
ghost use Rattle.keeper_api.specs.Undisturbed.{Undisturbed};
ghost use Rattle.rsl_chain.specs.Entries.{Taken};
ghost use Rattle.rsl_chain.specs.Logs.{IsLogOf, IsUnbroken, log_failed};
ghost use Rattle.entry_rules.specs.Learning.{AreKnownIn};
ghost use Rattle.judging.specs.Engines.{has_taken, taken};
ghost use Rattle.judging.specs.Logs.{last_signers, policy_after};
ghost use Rattle.entry_rules.specs.RealRules.{real_rules};
ghost use Rattle.verify_ref.specs.Following.{Follows};
ghost use Rattle.verify_ref.specs.Logs.{AreEntries, IsAstray};
ghost use Rattle.verify_ref.specs.Verdicts.{IsRefusal};
ghost use Rattle.global_verdicts.specs.Passing.{IsJudgedLog, JudgesNext, StandsFor};
ghost use Rattle.global_verdicts.specs.Rows.{IsRowBy};

use crate::in_force::{opened_found, put_found};
use crate::rows::{Row, change_of, is_judged, is_own, stands_at, why_under};
use git_object::{ObjectId, RefName};
use global_rules::FoundFile;
use keeper_api::{Keeper, KeeperFault};
use octets::Items;
use root_metadata::KeyIds;
use rsl_chain::{Entry, Log, LogFault, read_entry};
use std::alloc::Global;
use verify_ref::Engine;

/// A log that is judged by global rules on one reference: the engine that took its entries, what stands for the global
/// rules of the policy in force, and what is known of each entry, in their order.
#[derive(Drop)]
pub(crate) struct Pass {
    pub name: RefName,
    pub engine: Engine,
    pub file: FoundFile,
    pub rows: Items<Row>,
}

// What is known of the entry that the engine took last, by where the reference that is judged stood before it.
fn row_of<R: Keeper>(
    alloc: Global,
    keeper: &mut R,
    pass: &Pass,
    from: &ObjectId,
    entry: &Entry,
) -> Result<Row, KeeperFault>
    ensures row { IfOk result (λ row. (r : Repository) (log : List Taken) → R.content keeper.new ≡ Some r
        → Follows log pass.now.engine
        → IsRowBy r pass.now.name (policy_after (real_rules pass.now.engine.rules.anchor) log) pass.now.file from.now
        (last_signers (real_rules pass.now.engine.rules.anchor) log) entry.now.body row) }
    ensures same { Undisturbed R.Keeper keeper.old keeper.new }
    ensures cause { HasCause keeper_failed (R.faults keeper.old) (R.faults keeper.new) result }
{
    let own = is_own(&pass.name, entry);
    if !is_judged(&pass.name, entry) {
        return Ok(Row { own, why: None });
    }
    let change = change_of(alloc, &pass.name, from, pass.engine.signers(), entry)?;
    let why = why_under(alloc, keeper, pass.engine.policy(), &pass.file, &change)?;
    Ok(Row { own, why })
}

// Judges the next entry, and keeps what is known of it.
fn judge_entry<R: Keeper>(
    alloc: Global,
    keeper: &mut R,
    pass: &mut Pass,
    entry: &Entry,
) -> Result<(), KeeperFault>
    requires next { entry.now.number ≡ taken pass.old.engine.entries + 1 }
    requires fresh { has_taken pass.old.engine.entries entry.now.id ≡ false }
    requires known { (r : Repository) → R.content keeper.old ≡ Some r → AreKnownIn r pass.old.engine.known }
    ensures stands { OnOk result ((r : Repository) → R.content keeper.new ≡ Some r
        → (log : List Taken) → StandsFor log pass.old
        → StandsFor (log ++ record { entry = entry.now; repository = r } ∷ []) pass.new) }
    ensures rules { pass.new.engine.rules ≡ pass.old.engine.rules }
    ensures name { pass.new.name ≡ pass.old.name }
    ensures known { (r : Repository) → R.content keeper.new ≡ Some r → AreKnownIn r pass.new.engine.known }
    ensures same { Undisturbed R.Keeper keeper.old keeper.new }
    ensures cause { HasCause keeper_failed (R.faults keeper.old) (R.faults keeper.new) result }
{
    let from = stands_at(&pass.engine, &pass.name);
    let verdict = pass.engine.extend(alloc, keeper, entry)?;
    let row = row_of(alloc, keeper, pass, &from, entry)?;
    let opened = opened_found(alloc, keeper, pass.engine.policy(), entry, &verdict)?;
    put_found(&mut pass.file, opened);
    pass.rows.push(row)?;
    Ok(())
}

// Judges the entry at an id, where it is the next.
fn take<R: Keeper>(
    alloc: Global,
    keeper: &mut R,
    pass: &mut Pass,
    id: &ObjectId,
) -> Result<(), LogFault>
    requires known { (r : Repository) → R.content keeper.old ≡ Some r → AreKnownIn r pass.old.engine.known }
    ensures taken { OnOk result ((r : Repository) → R.content keeper.new ≡ Some r
        → JudgesNext r id.now pass.old pass.new) }
    ensures broken { IfErr result (λ fault. (r : Repository) → R.content keeper.new ≡ Some r
        → IsAstray r pass.old.engine.entries id.now fault) }
    ensures rules { pass.new.engine.rules ≡ pass.old.engine.rules }
    ensures name { pass.new.name ≡ pass.old.name }
    ensures known { (r : Repository) → R.content keeper.new ≡ Some r → AreKnownIn r pass.new.engine.known }
    ensures same { Undisturbed R.Keeper keeper.old keeper.new }
    ensures cause { HasCause log_failed (R.faults keeper.old) (R.faults keeper.new) result }
{
    let entry = read_entry(alloc, keeper, id)?;
    if !pass.engine.comes_next(&entry) {
        return Err(LogFault::Broken { id: *id });
    }
    match judge_entry(alloc, keeper, pass, &entry) {
        Ok(()) => Ok(()),
        Err(KeeperFault::Failed) => Err(LogFault::Failed),
        Err(KeeperFault::Memory) => Err(LogFault::Memory),
    }
}

// Judges the entries at these ids, which are a log, one after the other.
fn take_all<R: Keeper>(
    alloc: Global,
    keeper: &mut R,
    pass: &mut Pass,
    ids: &[ObjectId],
) -> Result<(), LogFault>
    requires none { StandsFor [] pass.old }
    requires known { (r : Repository) → R.content keeper.old ≡ Some r → AreKnownIn r pass.old.engine.known }
    ensures stands { OnOk result ((r : Repository) → R.content keeper.new ≡ Some r → (log : List Taken)
        × AreEntries r ids.now log × StandsFor log pass.new) }
    ensures unbroken { IfErr result (λ fault. (r : Repository) → R.content keeper.new ≡ Some r
        → IsLogOf r ids.now → IsUnbroken fault) }
    ensures rules { pass.new.engine.rules ≡ pass.old.engine.rules }
    ensures name { pass.new.name ≡ pass.old.name }
    ensures same { Undisturbed R.Keeper keeper.old keeper.new }
    ensures cause { HasCause log_failed (R.faults keeper.old) (R.faults keeper.new) result }
{
    'ids: for id in ids {
        match take(alloc, keeper, pass, id) {
            Ok(()) => {}
            Err(fault) => return Err(fault),
        }
    }
    Ok(())
}

// A log of no entry.
fn unjudged(alloc: Global, name: RefName, anchor: Option<KeyIds>) -> Pass
    ensures none { StandsFor [] result }
    ensures name { result.name ≡ name }
    ensures anchor { result.engine.rules.anchor ≡ anchor }
    ensures known { (r : Repository) → AreKnownIn r result.engine.known }
{
    Pass {
        name,
        engine: Engine::new(alloc, anchor),
        file: FoundFile::Absent,
        rows: Items::new(alloc),
    }
}

/// The log of the store's repository, judged on a reference, each entry in the repository and by the policy in force at
/// its number. Where ids are given, the first policy must have exactly their keys. `Broken` comes exactly where the log
/// is no chain, and names the commit at which it breaks.
pub(crate) fn judge_log<R: Keeper>(
    alloc: Global,
    keeper: &mut R,
    name: RefName,
    anchor: Option<KeyIds>,
) -> Result<Pass, LogFault>
    ensures judged { IfOk result (λ pass. (r : Repository) → R.content keeper.new ≡ Some r
        → IsJudgedLog r name anchor pass) }
    ensures broken { IfErr result (λ fault. (r : Repository) → R.content keeper.new ≡ Some r → IsRefusal r fault) }
    ensures same { Undisturbed R.Keeper keeper.old keeper.new }
    ensures cause { HasCause log_failed (R.faults keeper.old) (R.faults keeper.new) result }
{
    let log = Log::load(alloc, keeper)?;
    let mut pass = unjudged(alloc, name, anchor);
    match take_all(alloc, keeper, &mut pass, log.ids.as_slice()) {
        Ok(()) => Ok(pass),
        Err(fault) => Err(fault),
    }
}
