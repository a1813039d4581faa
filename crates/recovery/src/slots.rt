//! Slots: one for each name.

ghost use Rattle.std.specs.Prelude.{◌≡◌, ◌<◌, ◌≤◌, ◌++◌, ◌∷◌, [], ℕ, List, length, vec_len, if◌then◌else◌, slice_set};
ghost use Rattle.std.specs.Prelude.{Some, IfOk, OnOk, OnErr};
ghost use Rattle.std.specs.BTreeMap as tree;
ghost use Rattle.std.specs.List.{All};
ghost use Rattle.std.specs.Ordering.{is_eq};
ghost use Rattle.octets.specs.BytesMap.{by_bytes};
ghost use Rattle.recovery.specs.Marking.{AreRows};
ghost use Rattle.recovery.specs.Rows.{slot_at};
ghost use Rattle.recovery.specs.Steps.{IsOpened, Skips, SkipsAt, fixed_slot, pushed_row, pushed_slot};

use crate::pending::Pending;
use crate::rows::{Row, last_unskipped, place_of};
use git_object::RefName;
use octets::{Copied, Memory};
use std::alloc::Global;
use std::collections::BTreeMap;

/// What is kept of a name beside its rows.
#[derive(Drop)]
pub struct Slot {
    pub name: RefName,
    /// The place right after the last row that is not skipped, or 0.
    pub last: usize,
    pub count: u64,
    pub pending: Pending,
}

/// The slot of a name.
pub fn slot_of(names: &BTreeMap<RefName, usize>, name: &RefName) -> Option<usize>
    ensures { result ≡ tree.get by_bytes names.now name.now }
{
    names.get(name).copied()
}

// Gives a name a number. After a refusal nothing has changed.
fn insert_name(
    names: &mut BTreeMap<RefName, usize>,
    name: RefName,
    slot: usize,
) -> Result<(), Memory>
    ensures put { OnOk result ((q : List ℕ)
        → tree.get by_bytes names.new q
        ≡ (if is_eq (by_bytes name q) then Some slot else tree.get by_bytes names.old q)) }
    ensures same { OnErr result (names.new.entries ≡ names.old.entries) }
{
    let _had = names.insert(name, slot)?;
    Ok(())
}

/// The slot of a name, which is opened where there is none. After a refusal nothing has changed.
pub fn open_slot(
    alloc: Global,
    slots: &mut Vec<Slot>,
    names: &mut BTreeMap<RefName, usize>,
    name: &RefName,
) -> Result<usize, Memory>
    ensures opened { IfOk result (λ k. IsOpened slots.old.items names.old name.now slots.new.items names.new k) }
    ensures same { OnErr result (slots.new.items ≡ slots.old.items) }
    ensures same_names { OnErr result (names.new.entries ≡ names.old.entries) }
{
    if let Some(slot) = slot_of(names, name) {
        return Ok(slot);
    }
    let slot = slots.len();
    let key = name.copied()?;
    slots.push(Slot {
        name: name.copied()?,
        last: 0,
        count: 0,
        pending: Pending::new(alloc),
    })?;
    match insert_name(names, key, slot) {
        Ok(()) => Ok(slot),
        Err(refused) => {
            slots.truncate(slot);
            Err(refused)
        }
    }
}

// Notes a number as pending, where it is.
fn note_pending(slot: &mut Slot, number: u64, pending: bool) -> Result<(), Memory>
    requires { All (λ n. n < number) slot.old.pending }
    ensures noted { OnOk result (slot.new
        ≡ record slot.old { pending = (if pending then slot.old.pending ++ number ∷ [] else slot.old.pending) }) }
    ensures same { OnErr result (slot.new ≡ slot.old) }
{
    if pending {
        slot.pending.push(number)?;
    }
    Ok(())
}

/// Adds a row for a number of a slot. After a refusal nothing has changed.
pub fn push_row(
    rows: &mut Vec<Row>,
    slots: &mut Vec<Slot>,
    at: usize,
    number: u64,
    pending: bool,
) -> Result<(), Memory>
    requires within { at < vec_len slots.old }
    requires few { (slot_at slots.old.items at).count ≤ vec_len rows.old }
    requires rising { All (λ n. n < number) (slot_at slots.old.items at).pending }
    ensures row { OnOk result (rows.new.items ≡ rows.old.items ++ pushed_row at number (slot_at slots.old.items at)
        ∷ []) }
    ensures slot { OnOk result (slots.new.items ≡ slice_set slots.old.items at
        (pushed_slot (length rows.old.items) number pending (slot_at slots.old.items at))) }
    ensures same { OnErr result (rows.new.items ≡ rows.old.items) }
    ensures same_slots { OnErr result (slots.new.items ≡ slots.old.items) }
{
    push_to(rows, &mut slots[at], at, number, pending)
}

/// Takes the numbers strictly between the two from what is pending of a slot.
pub fn fix_slot(slots: &mut Vec<Slot>, at: usize, above: u64, below: u64)
    requires { at < vec_len slots.old }
    ensures { slots.new.items ≡ slice_set slots.old.items at (fixed_slot above below (slot_at slots.old.items at)) }
{
    slots[at].pending.fix(above, below);
}

// Adds a row for a number of the slot. After a refusal nothing has changed.
fn push_to(
    rows: &mut Vec<Row>,
    slot: &mut Slot,
    at: usize,
    number: u64,
    pending: bool,
) -> Result<(), Memory>
    requires few { slot.old.count ≤ vec_len rows.old }
    requires rising { All (λ n. n < number) slot.old.pending }
    ensures row { OnOk result (rows.new.items ≡ rows.old.items ++ pushed_row at number slot.old ∷ []) }
    ensures slot { OnOk result (slot.new ≡ pushed_slot (length rows.old.items) number pending slot.old) }
    ensures same { OnErr result (rows.new.items ≡ rows.old.items) }
    ensures same_slot { OnErr result (slot.new ≡ slot.old) }
{
    rows.push(Row {
        number,
        slot: at,
        back: slot.last,
        skipped: false,
    })?;
    match note_pending(slot, number, pending) {
        Ok(()) => {
            slot.last = rows.len();
            slot.count += 1;
            Ok(())
        }
        Err(refused) => {
            rows.truncate(rows.len() - 1);
            Err(refused)
        }
    }
}

// Marks a row as skipped.
fn skip_at(rows: &mut Vec<Row>, slots: &mut Vec<Slot>, at: usize)
    requires within { at < vec_len rows.old }
    requires rows { AreRows rows.old.items slots.old.items }
    ensures { SkipsAt at rows.old.items slots.old.items rows.new.items slots.new.items }
{
    let row = &mut rows[at];
    row.skipped = true;
    let slot = &mut slots[row.slot];
    slot.last = last_unskipped(rows.as_slice(), slot.last);
}

/// Marks the row of a number as skipped, where there is one.
pub fn skip_row(rows: &mut Vec<Row>, slots: &mut Vec<Slot>, number: u64)
    requires { AreRows rows.old.items slots.old.items }
    ensures { Skips number rows.old.items slots.old.items rows.new.items slots.new.items }
{
    match place_of(rows.as_slice(), number) {
        Some(at) => skip_at(rows, slots, at),
        None => {}
    }
}
