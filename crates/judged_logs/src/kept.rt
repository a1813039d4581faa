//! By which entries others are skipped and rescued.

ghost use Rattle.std.specs.Prelude.{◌≡◌, ◌==◌, ◌&&◌, ◌<◌, ◌++◌, ◌∷◌, [], ℕ, List, OnOk};
ghost use Rattle.std.specs.Prelude.{not, true};
ghost use Rattle.rsl_chain.specs.Entries.{Taken};
ghost use Rattle.recovery.specs.Lanes.{is_in};
ghost use Rattle.judging.specs.Engines.{Stands};
ghost use Rattle.judging.specs.Logs.{entry_at, has_id, pending, skipped};
ghost use Rattle.judging.specs.Rules.{Rules};
ghost use Rattle.judged_logs.specs.Firsts.{rescuer_of, skipper_of};
ghost use Rattle.judged_logs.specs.Keeping.{AreOpen, HasOwn, IsNoted, Knows, is_skipped_among};

use crate::marks::note;
use git_object::ObjectId;
use judging::Engine;
use octets::Memory;
use rsl_chain::{Entry, EntryBody};
use std::alloc::Global;
use std::collections::BTreeMap;

/// By which entries of a log those before them are skipped and rescued, by numbers.
#[derive(Drop)]
pub struct ByWhom {
    skippers: BTreeMap<u64, u64>,
    rescuers: BTreeMap<u64, u64>,
}

// Notes that the entry of a number is skipped, where it is.
fn note_place<P, F>(
    engine: &Engine<P, F>,
    skippers: &mut BTreeMap<u64, u64>,
    number: u64,
    by: u64,
) -> Result<(), Memory>
    ensures { OnOk result ((rules : Rules P F) (log : List Taken) → Stands rules log engine.now → 0 < number
        → IsNoted (λ i. number == i && skipped rules log number) by skippers.old skippers.new) }
{
    if engine.skipped(number) {
        note(skippers, number, by)
    } else {
        Ok(())
    }
}

// Notes that the entry of an id is skipped, where it is.
fn note_skip<P, F>(
    engine: &Engine<P, F>,
    skippers: &mut BTreeMap<u64, u64>,
    id: &ObjectId,
    by: u64,
) -> Result<(), Memory>
    ensures { OnOk result ((rules : Rules P F) (log : List Taken) → Stands rules log engine.now
        → IsNoted (λ i. has_id (entry_at log i) id.now && skipped rules log i) by skippers.old skippers.new) }
{
    match engine.place(id) {
        Some(number) => note_place(engine, skippers, number, by),
        None => Ok(()),
    }
}

// Notes which of the entries of these ids are skipped.
fn note_skips<P, F>(
    engine: &Engine<P, F>,
    skippers: &mut BTreeMap<u64, u64>,
    ids: &[ObjectId],
    by: u64,
) -> Result<(), Memory>
    ensures { OnOk result ((rules : Rules P F) (log : List Taken) → Stands rules log engine.now
        → IsNoted (is_skipped_among rules log ids.now) by skippers.old skippers.new) }
{
    'ids: for id in ids {
        note_skip(engine, skippers, id, by)?;
    }
    Ok(())
}

// Notes that the entry of a number is no longer pending, where it is not.
fn note_rescue<P, F>(
    engine: &Engine<P, F>,
    rescuers: &mut BTreeMap<u64, u64>,
    number: &u64,
    by: u64,
) -> Result<(), Memory>
    ensures { OnOk result ((rules : Rules P F) (log : List Taken) → Stands rules log engine.now
        → HasOwn log number.now
        → IsNoted (λ b. number.now == b && not (pending rules log number.now)) by rescuers.old rescuers.new) }
{
    if engine.pending(*number) {
        Ok(())
    } else {
        note(rescuers, *number, by)
    }
}

// Notes which of these are no longer pending.
fn note_rescues<P, F>(
    engine: &Engine<P, F>,
    rescuers: &mut BTreeMap<u64, u64>,
    numbers: &[u64],
    by: u64,
) -> Result<(), Memory>
    ensures { OnOk result ((rules : Rules P F) (log : List Taken) → Stands rules log engine.now
        → ((b : ℕ) → is_in b numbers.now ≡ true → HasOwn log b)
        → IsNoted (λ b. is_in b numbers.now && not (pending rules log b)) by rescuers.old rescuers.new) }
{
    'numbers: for number in numbers {
        note_rescue(engine, rescuers, number, by)?;
    }
    Ok(())
}

impl ByWhom {
    /// Of no entry. It takes no memory.
    pub fn new<P, F>(alloc: Global) -> ByWhom
        ensures { (rules : Rules P F) → Knows rules [] result }
    {
        ByWhom {
            skippers: BTreeMap::new(alloc),
            rescuers: BTreeMap::new(alloc),
        }
    }

    /// The number of the first annotation that skips the entry of a number.
    pub fn skipper<P, F>(&self, number: u64) -> Option<u64>
        ensures { (rules : Rules P F) (log : List Taken) → 0 < number → Knows rules log self.now
            → result ≡ skipper_of rules log number }
    {
        self.skippers.get(&number).copied()
    }

    /// The number of the first entry that rescues the entry of a number, where that is refused.
    pub fn rescuer<P, F>(&self, number: u64) -> Option<u64>
        ensures { (rules : Rules P F) (log : List Taken) → 0 < number → Knows rules log self.now
            → result ≡ rescuer_of rules log number }
    {
        self.rescuers.get(&number).copied()
    }

    /// Takes the entry that the engine took last, by the numbers that were open to it before. After want of memory it
    /// knows nothing for certain.
    pub fn take<P, F>(
        &mut self,
        engine: &Engine<P, F>,
        entry: &Entry,
        numbers: &[u64],
    ) -> Result<(), Memory>
        ensures { OnOk result ((rules : Rules P F) (log : List Taken) (t : Taken) → t.entry ≡ entry.now
            → Stands rules (log ++ t ∷ []) engine.now → AreOpen rules log entry.now.body numbers.now
            → Knows rules log self.old → Knows rules (log ++ t ∷ []) self.new) }
    {
        let by = engine.len();
        match &entry.body {
            EntryBody::Reference { name: _, target: _ } => {
                note_rescues(engine, &mut self.rescuers, numbers, by)
            }
            EntryBody::Annotation {
                ids,
                skip: _,
                message: _,
            } => note_skips(engine, &mut self.skippers, ids.as_slice(), by),
        }
    }
}
