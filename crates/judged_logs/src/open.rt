//! What an entry may rescue, before it is taken.

ghost use Rattle.std.specs.Prelude.{◌≡◌, ℕ, List, IfOk, OnOk};
ghost use Rattle.rsl_chain.specs.Entries.{Taken};
ghost use Rattle.rsl_chain.specs.declared.entries.EntryBody.TheVariants.{Reference};
ghost use Rattle.judging.specs.Engines.{Stands};
ghost use Rattle.judging.specs.Logs.{above};
ghost use Rattle.judging.specs.Rules.{Rules};
ghost use Rattle.judged_logs.specs.Keeping.{AreOpen, ArePending, IsAdded};

use git_object::RefName;
use judging::Engine;
use octets::{Items, Memory};
use rsl_chain::{Entry, EntryBody};
use std::alloc::Global;

// Adds a number, where its entry is pending.
fn add_pending<P, F>(
    engine: &Engine<P, F>,
    found: &mut Items<u64>,
    number: u64,
) -> Result<(), Memory>
    ensures { OnOk result ((rules : Rules P F) (log : List Taken) → Stands rules log engine.now
        → IsAdded rules log number found.old found.new) }
{
    if engine.pending(number) {
        found.push(number)
    } else {
        Ok(())
    }
}

// The numbers greater than this one of the entries that are pending.
fn pending_above<P, F>(
    alloc: Global,
    engine: &Engine<P, F>,
    above: u64,
) -> Result<Items<u64>, Memory>
    ensures { IfOk result (λ found. (rules : Rules P F) (log : List Taken) → Stands rules log engine.now
        → ArePending rules log above found) }
{
    let mut found = Items::new(alloc);
    'places: for place in above..engine.len() {
        add_pending(engine, &mut found, place + 1)?;
    }
    Ok(found)
}

// Where a reference stands: the number of its last entry that is not skipped, or 0.
fn above_of<P, F>(engine: &Engine<P, F>, name: &RefName) -> u64
    ensures { (rules : Rules P F) (log : List Taken) → Stands rules log engine.now → result ≡ above rules log name.now }
{
    match engine.prior(name) {
        Some(number) => number,
        None => 0,
    }
}

// Those that an entry of a reference may rescue.
fn open_above<P, F>(
    alloc: Global,
    engine: &Engine<P, F>,
    name: &RefName,
) -> Result<Items<u64>, Memory>
    ensures { IfOk result (λ found. (rules : Rules P F) (log : List Taken) → Stands rules log engine.now
        → (target : List ℕ) → AreOpen rules log (Reference name.now target) found) }
{
    if engine.may_rescue(name) {
        pending_above(alloc, engine, above_of(engine, name))
    } else {
        Ok(Items::new(alloc))
    }
}

/// The numbers of the entries taken that the next entry may rescue: those that are pending behind where its reference
/// stands, and maybe others that are pending.
pub fn open_to<P, F>(
    alloc: Global,
    engine: &Engine<P, F>,
    entry: &Entry,
) -> Result<Items<u64>, Memory>
    ensures { IfOk result (λ found. (rules : Rules P F) (log : List Taken) → Stands rules log engine.now
        → AreOpen rules log entry.now.body found) }
{
    match &entry.body {
        EntryBody::Reference { name, target: _ } => open_above(alloc, engine, name),
        EntryBody::Annotation {
            ids: _,
            skip: _,
            message: _,
        } => Ok(Items::new(alloc)),
    }
}
