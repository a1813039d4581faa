//! What a push's entry would be answered where the push is taken.

ghost use Rattle.std.specs.Prelude.{◌≡◌, ◌++◌, ◌∷◌, [], ℕ, Bool, List, Some, not, IfOk, OnOk};
ghost use Rattle.std.specs.List.{filter};
ghost use Rattle.octets.specs.Causes.{HasCause};
ghost use Rattle.git_object.specs.Objects.{pair_id};
ghost use Rattle.git_object.specs.Repository.{Repository};
ghost use Rattle.keeper_api.specs.Changes.{changed};
ghost use Rattle.keeper_api.specs.Faults.{keeper_failed};
ghost use Rattle.keeper_api.specs.Undisturbed.{Undisturbed};
ghost use Rattle.rsl_chain.specs.Entries.{Taken};
ghost use Rattle.entry_rules.specs.Learning.{AreKnownIn};
ghost use Rattle.judging.specs.Engines.{has_taken};
ghost use Rattle.judging.specs.Verdicts.{verdict_of};
ghost use Rattle.entry_rules.specs.RealRules.{real_rules};
ghost use Rattle.verify_ref.specs.Following.{Follows};
ghost use Rattle.desk_core.specs.Adding.{change_beside, refs_of};
ghost use Rattle.desk_core.specs.States.{KnowsStore};

use crate::copying::copied_entry;
use git_object::{Object, Objects};
use keeper_api::{Change, Keeper, KeeperFault, RefChanges};
use keeper_layers::{IndexedChange, Overlay, replaces};
use octets::{Copied, Memory};
use placed_items::Placed;
use pushes::{Push, change_of};
use rsl_chain::Entry;
use std::alloc::Global;
use verify_ref::{Engine, EntryVerdict, Fault, LogEngine};

// The references that an entry moves.
fn refs_of(alloc: Global, entry: &Entry) -> Result<RefChanges, Memory>
    ensures { IfOk result (λ refs. refs ≡ refs_of entry.now) }
{
    let push = Push {
        entry: copied_entry(entry)?,
        objects: Objects::new(alloc),
    };
    let change = change_of(alloc, &Placed::new(alloc), &push)?;
    Ok(change.refs)
}

// The objects whose ids the engine did not take.
fn new_objects(alloc: Global, engine: &LogEngine, objects: &[Object]) -> Result<Objects, Memory>
    ensures { IfOk result (λ kept. kept ≡ filter (λ pair. not (has_taken engine.now (pair_id pair))) objects.now) }
{
    let mut kept = Objects::new(alloc);
    'objects: for object in objects {
        if !engine.has(&object.id()) {
            kept.push(object.copied()?)?;
        }
    }
    Ok(kept)
}

// The change of a push beside the entries that the engine took.
fn change_beside(alloc: Global, engine: &LogEngine, push: &Push) -> Result<IndexedChange, Memory>
    ensures { IfOk result (λ change. change ≡ change_beside (has_taken engine.now) push.now) }
{
    let objects = new_objects(alloc, engine, push.objects.as_slice())?;
    let refs = refs_of(alloc, &push.entry)?;
    IndexedChange::new(alloc, Change { objects, refs })
}

// What the next entry would be answered where a change is laid over a store, which stays lent.
fn look_in<'a, R: Keeper>(
    alloc: Global,
    overlay: &mut Overlay<'a, R>,
    engine: &Engine,
    entry: &Entry,
) -> Result<EntryVerdict<Fault>, KeeperFault>
    requires known { (r : Repository) → R.content overlay.old.under.now ≡ Some r
        → AreKnownIn (changed overlay.old.change.now r) engine.now.known }
    ensures answer { IfOk result (λ verdict. (r : Repository) (log : List Taken)
        → R.content overlay.new.under.now ≡ Some r
        → Follows log engine.now → verdict ≡ verdict_of (real_rules engine.now.rules.anchor) log
        (record { entry = entry.now; repository = changed overlay.old.change.now r })) }
    ensures same { Undisturbed R.Keeper overlay.old.under.now overlay.new.under.now }
    ensures same_reference { overlay.new.under.ghost_name ≡ overlay.old.under.ghost_name }
    ensures cause { HasCause keeper_failed (R.faults overlay.old.under.now) (R.faults overlay.new.under.now) result }
{
    if !engine.comes_next(entry) {
        return Err(KeeperFault::Memory);
    }
    match engine.look(alloc, overlay, entry) {
        Ok(verdict) => Ok(verdict),
        Err(fault) => Err(fault),
    }
}

// What the next entry would be answered where the change is laid over the store.
fn look_over<R: Keeper>(
    alloc: Global,
    keeper: &mut R,
    engine: &Engine,
    change: &IndexedChange,
    entry: &Entry,
) -> Result<EntryVerdict<Fault>, KeeperFault>
    requires known { (r : Repository) → R.content keeper.old ≡ Some r
        → AreKnownIn (changed change.now r) engine.now.known }
    ensures answer { IfOk result (λ verdict. (r : Repository) (log : List Taken) → R.content keeper.new ≡ Some r
        → Follows log engine.now → verdict ≡ verdict_of (real_rules engine.now.rules.anchor) log
        (record { entry = entry.now; repository = changed change.now r })) }
    ensures same { Undisturbed R.Keeper keeper.old keeper.new }
    ensures cause { HasCause keeper_failed (R.faults keeper.old) (R.faults keeper.new) result }
{
    let mut overlay = Overlay {
        under: keeper,
        change,
        reads: 0,
    };
    match look_in(alloc, &mut overlay, engine, entry) {
        Ok(verdict) => Ok(verdict),
        Err(fault) => Err(fault),
    }
}

// Lets go what is known of trees where a pushed object would be kept in the place of another.
fn make_ready<R: Keeper>(
    alloc: Global,
    keeper: &mut R,
    engine: &mut Engine,
    objects: &[Object],
) -> Result<(), KeeperFault>
    requires known { KnowsStore R.Keeper keeper.old engine.old }
    ensures known { KnowsStore R.Keeper keeper.new engine.new }
    ensures grown { OnOk result ((r : Repository) (change : Change) (has : List ℕ → Bool)
        → R.content keeper.new ≡ Some r
        → change.objects ≡ filter (λ pair. not (has (pair_id pair))) objects.now
        → AreKnownIn (changed change r) engine.new.known) }
    ensures follows { (log : List Taken) → Follows log engine.old → Follows log engine.new }
    ensures rules { engine.new.rules ≡ engine.old.rules }
    ensures entries { engine.new.entries ≡ engine.old.entries }
    ensures same { Undisturbed R.Keeper keeper.old keeper.new }
    ensures cause { HasCause keeper_failed (R.faults keeper.old) (R.faults keeper.new) result }
{
    let clash = replaces(alloc, keeper, objects)?;
    if clash {
        engine.forget(alloc);
        return Ok(());
    }
    Ok(())
}

/// What a push's entry would be answered in the repository that the push would make, beside the entries that the engine
/// took. An entry that is not the next, which never comes over a store that tells what it holds, is answered by
/// `Memory`.
pub(crate) fn look_at<R: Keeper>(
    alloc: Global,
    keeper: &mut R,
    engine: &mut Engine,
    push: &Push,
) -> Result<EntryVerdict<Fault>, KeeperFault>
    requires known { KnowsStore R.Keeper keeper.old engine.old }
    ensures answer { IfOk result (λ verdict. (r : Repository) (log : List Taken) → R.content keeper.new ≡ Some r
        → Follows log engine.new → verdict ≡ verdict_of (real_rules engine.new.rules.anchor) log
        (record {
          entry = push.now.entry;
          repository = changed (change_beside (has_taken engine.new.entries) push.now) r;
        })) }
    ensures known { KnowsStore R.Keeper keeper.new engine.new }
    ensures grown { OnOk result ((r : Repository) (has : List ℕ → Bool) → R.content keeper.new ≡ Some r
        → AreKnownIn (changed (change_beside has push.now) r) engine.new.known) }
    ensures follows { (log : List Taken) → Follows log engine.old → Follows log engine.new }
    ensures rules { engine.new.rules ≡ engine.old.rules }
    ensures same { Undisturbed R.Keeper keeper.old keeper.new }
    ensures cause { HasCause keeper_failed (R.faults keeper.old) (R.faults keeper.new) result }
{
    make_ready(alloc, keeper, engine, push.objects.as_slice())?;
    let change = change_beside(alloc, engine.entries(), push)?;
    match look_over(alloc, keeper, engine, &change, &push.entry) {
        Ok(verdict) => Ok(verdict),
        Err(fault) => Err(fault),
    }
}
