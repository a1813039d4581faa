//! An engine that takes the entries which it lacks.

ghost use Rattle.std.specs.Prelude.{◌≡◌, ◌++◌, ◌∷◌, [], List, None, Some, IfErr, OnErr, OnOk};
ghost use Rattle.octets.specs.Causes.{HasCause};
ghost use Rattle.git_object.specs.Repository.{Repository};
ghost use Rattle.keeper_api.specs.Faults.{keeper_failed};
ghost use Rattle.keeper_api.specs.Undisturbed.{Undisturbed};
ghost use Rattle.rsl_chain.specs.Entries.{Taken};
ghost use Rattle.rsl_chain.specs.Logs.{IsNamed, log_failed};
ghost use Rattle.verify_ref.specs.Following.{Follows};
ghost use Rattle.verify_ref.specs.Logs.{IsAstray};
ghost use Rattle.pushes.specs.Steps.{ids_of};
ghost use Rattle.desk_core.specs.Lagging.{BreaksBehind, TakesAll, TakesAt};
ghost use Rattle.desk_core.specs.States.{IsBehind, KnowsStore};

use git_object::ObjectId;
use keeper_api::{Keeper, KeeperFault};
use pushes::Row;
use rsl_chain::{Entry, LogFault, read_entry};
use std::alloc::Global;
use verify_ref::Engine;

// Takes the next entry. One that is not the next, which never comes over a store that tells what it holds, is answered
// by `Memory`.
fn take_next<R: Keeper>(
    alloc: Global,
    keeper: &mut R,
    engine: &mut Engine,
    entry: &Entry,
) -> Result<(), KeeperFault>
    requires known { KnowsStore R.Keeper keeper.old engine.old }
    ensures takes { OnOk result ((r : Repository) (log : List Taken) → R.content keeper.new ≡ Some r
        → Follows log engine.old → Follows (log ++ record { entry = entry.now; repository = r } ∷ []) engine.new) }
    ensures refused { OnErr result ((log : List Taken) → Follows log engine.old → Follows log engine.new) }
    ensures rules { engine.new.rules ≡ engine.old.rules }
    ensures known { KnowsStore R.Keeper keeper.new engine.new }
    ensures same { Undisturbed R.Keeper keeper.old keeper.new }
    ensures cause { HasCause keeper_failed (R.faults keeper.old) (R.faults keeper.new) result }
{
    if !engine.comes_next(entry) {
        return Err(KeeperFault::Memory);
    }
    match engine.extend(alloc, keeper, entry) {
        Ok(_) => Ok(()),
        Err(fault) => Err(fault),
    }
}

/// Takes the entry that is kept, if there is one.
pub(crate) fn catch_up<R: Keeper>(
    alloc: Global,
    keeper: &mut R,
    engine: &mut Engine,
    waiting: &Option<Entry>,
) -> Result<(), KeeperFault>
    requires known { KnowsStore R.Keeper keeper.old engine.old }
    ensures caught { OnOk result ((r : Repository) (log : List Taken) → R.content keeper.new ≡ Some r
        → IsBehind r log engine.old waiting.now → Follows log engine.new) }
    ensures refused { OnErr result ((log : List Taken) → Follows log engine.old → Follows log engine.new) }
    ensures rules { engine.new.rules ≡ engine.old.rules }
    ensures known { KnowsStore R.Keeper keeper.new engine.new }
    ensures same { Undisturbed R.Keeper keeper.old keeper.new }
    ensures cause { HasCause keeper_failed (R.faults keeper.old) (R.faults keeper.new) result }
{
    match waiting {
        Some(entry) => take_next(alloc, keeper, engine, entry),
        None => Ok(()),
    }
}

// Takes the entry at an id, where it is the next.
fn take_row<R: Keeper>(
    alloc: Global,
    keeper: &mut R,
    engine: &mut Engine,
    id: &ObjectId,
) -> Result<(), LogFault>
    requires known { KnowsStore R.Keeper keeper.old engine.old }
    ensures takes { OnOk result ((r : Repository) (log : List Taken) → R.content keeper.new ≡ Some r
        → Follows log engine.old → TakesAt r log id.now engine.new) }
    ensures astray { IfErr result (λ fault. (r : Repository) → R.content keeper.new ≡ Some r
        → IsAstray r engine.old.entries id.now fault) }
    ensures named { IfErr result (IsNamed id.now) }
    ensures rules { engine.new.rules ≡ engine.old.rules }
    ensures known { KnowsStore R.Keeper keeper.new engine.new }
    ensures same { Undisturbed R.Keeper keeper.old keeper.new }
    ensures cause { HasCause log_failed (R.faults keeper.old) (R.faults keeper.new) result }
{
    let entry = read_entry(alloc, keeper, id)?;
    if !engine.comes_next(&entry) {
        return Err(LogFault::Broken { id: *id });
    }
    match engine.extend(alloc, keeper, &entry) {
        Ok(_) => Ok(()),
        Err(KeeperFault::Failed) => Err(LogFault::Failed),
        Err(KeeperFault::Memory) => Err(LogFault::Memory),
    }
}

/// Takes the entries of rows, one after the other, each read from the store.
pub(crate) fn take_rows<R: Keeper>(
    alloc: Global,
    keeper: &mut R,
    engine: &mut Engine,
    rows: &[Row],
) -> Result<(), LogFault>
    requires known { KnowsStore R.Keeper keeper.old engine.old }
    ensures takes { OnOk result ((r : Repository) (log : List Taken) → R.content keeper.new ≡ Some r
        → Follows log engine.old → TakesAll r log (ids_of rows.now) engine.new) }
    ensures broken { IfErr result (λ fault. (r : Repository) (log : List Taken) → R.content keeper.new ≡ Some r
        → Follows log engine.old → BreaksBehind r log (ids_of rows.now) fault) }
    ensures rules { engine.new.rules ≡ engine.old.rules }
    ensures known { KnowsStore R.Keeper keeper.new engine.new }
    ensures same { Undisturbed R.Keeper keeper.old keeper.new }
    ensures cause { HasCause log_failed (R.faults keeper.old) (R.faults keeper.new) result }
{
    'rows: for row in rows {
        match take_row(alloc, keeper, engine, &row.id) {
            Ok(()) => {}
            Err(fault) => return Err(fault),
        }
    }
    Ok(())
}
