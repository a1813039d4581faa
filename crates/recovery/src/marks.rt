//! The marks of all references.

ghost use Rattle.std.specs.Prelude.{◌≡◌, ◌↔◌, ◌≤◌, ℕ, List, false, length, nat_lt, if◌then◌else◌, IfNone, IfSome};
ghost use Rattle.std.specs.Prelude.{IsTrue, OnOk, OnErr};
ghost use Rattle.std.specs.List.{All, list_any};
ghost use Rattle.std.specs.Str.{bytes_eq};
ghost use Rattle.recovery.specs.Lanes.{IsNew, empty_lane, first_of, is_in, is_skipped_in, lane_of, last_of, with_fix};
ghost use Rattle.recovery.specs.Lanes.{with_number, with_skip};

use crate::rows::{Row, number_before, place_of};
use crate::slots::{Slot, fix_slot, open_slot, push_row, skip_row, slot_of};
use git_object::RefName;
use octets::Memory;
use std::alloc::Global;
use std::collections::BTreeMap;
use std::marker::Model;

/// For each reference the numbers of its entries that were pushed, those that are not skipped, and those that
/// are pending.
#[derive(Drop)]
pub struct Marks {
    rows: Vec<Row>,
    slots: Vec<Slot>,
    names: BTreeMap<RefName, usize>,
}

impl Model for Marks {
    ghost use Rattle.octets.specs.BytesMap.{BytesMap};
    ghost use Rattle.std.specs.Coded.{coded_list, coded_ℕ};
    ghost use Rattle.std.specs.FinMap.{code};
    ghost use Rattle.recovery.specs.Lanes.{Lane, lane_coded};

    ghost Value = { BytesMap Lane };

    ghost coded = { code (coded_list coded_ℕ) lane_coded };

    ghost use Rattle.recovery.specs.Marking.{IsMarked, lanes};

    ghost view = { λ m. lanes m.rows.items m.slots.items m.names };

    ghost invariant = { λ m. IsMarked m.rows.items m.slots.items m.names };
}

impl Marks {
    /// No number of any name. It takes no memory.
    pub fn new(alloc: Global) -> Marks
        ensures { (name : List ℕ) → lane_of result name ≡ empty_lane }
    {
        Marks {
            rows: Vec::new(alloc),
            slots: Vec::new(alloc),
            names: BTreeMap::new(alloc),
        }
    }

    /// Adds an entry's number, which is greater than all before, to its reference's; pending, where the entry
    /// is refused. After a refusal nothing has changed. What the other calls need of memory is taken here.
    pub fn push(&mut self, name: &RefName, number: u64, pending: bool) -> Result<(), Memory>
        requires { IsNew number self.old }
        ensures pushed { OnOk result ((other : List ℕ) → lane_of self.new other
            ≡ (if bytes_eq name.now other then with_number number pending (lane_of self.old other) else lane_of self.old other)) }
        ensures same { OnErr result ((other : List ℕ) → lane_of self.new other ≡ lane_of self.old other) }
    {
        let alloc = *self.rows.allocator();
        let at = open_slot(alloc, &mut self.slots, &mut self.names, name)?;
        push_row(&mut self.rows, &mut self.slots, at, number, pending)?;
        Ok(())
    }

    /// Skips a number. It changes nothing for one that was not pushed or is skipped already, and leaves what
    /// is pending.
    pub fn skip(&mut self, number: u64)
        ensures { (name : List ℕ) → lane_of self.new name ≡ with_skip number (lane_of self.old name) }
    {
        skip_row(&mut self.rows, &mut self.slots, number);
    }

    /// Takes the numbers strictly between the two from what is pending of a reference.
    pub fn fix(&mut self, name: &RefName, above: u64, below: u64)
        ensures { (other : List ℕ) → lane_of self.new other
            ≡ (if bytes_eq name.now other then with_fix above below (lane_of self.old other) else lane_of self.old other) }
    {
        match slot_of(&self.names, name) {
            Some(at) => fix_slot(&mut self.slots, at, above, below),
            None => {}
        }
    }

    /// The greatest number of a reference that is not skipped.
    pub fn prior(&self, name: &RefName) -> Option<u64>
        ensures last { result ≡ last_of (lane_of self.now name.now).unskipped }
        ensures greatest { IfSome result (λ n. All (λ m. m ≤ n) (lane_of self.now name.now).unskipped) }
    {
        let at = slot_of(&self.names, name)?;
        number_before(self.rows.as_slice(), self.slots[at].last)
    }

    /// The least number of a reference that is pending.
    pub fn first_pending(&self, name: &RefName) -> Option<u64>
        ensures first { result ≡ first_of (lane_of self.now name.now).pending }
        ensures least { IfSome result (λ n. All (λ m. n ≤ m) (lane_of self.now name.now).pending) }
    {
        let at = slot_of(&self.names, name)?;
        self.slots[at].pending.first()
    }

    /// Whether a number of a reference that is greater than this one is pending.
    pub fn is_pending_after(&self, name: &RefName, above: u64) -> bool
        ensures { result ≡ list_any (nat_lt above) (lane_of self.now name.now).pending }
    {
        match slot_of(&self.names, name) {
            Some(at) => self.slots[at].pending.passes(above),
            None => false,
        }
    }

    /// Whether a number of a reference is pending.
    pub fn is_pending(&self, name: &RefName, number: u64) -> bool
        ensures { result ≡ is_in number (lane_of self.now name.now).pending }
    {
        match slot_of(&self.names, name) {
            Some(at) => self.slots[at].pending.has(number),
            None => false,
        }
    }

    /// How many numbers of a reference were pushed.
    pub fn count(&self, name: &RefName) -> u64
        ensures { result ≡ length (lane_of self.now name.now).pushed }
    {
        match slot_of(&self.names, name) {
            Some(at) => self.slots[at].count,
            None => 0,
        }
    }

    /// The reference to which a number was pushed.
    pub fn name_of(&self, number: u64) -> Option<&RefName>
        ensures found { IfSome result (λ name. IsTrue (is_in number (lane_of self.now name.now).pushed)) }
        ensures none { IfNone result ((name : List ℕ) → is_in number (lane_of self.now name).pushed ≡ false) }
    {
        let at = place_of(self.rows.as_slice(), number)?;
        Some(&self.slots[self.rows[at].slot].name)
    }

    /// Whether a number was pushed and skipped.
    pub fn is_skipped(&self, number: u64) -> bool
        ensures { IsTrue result ↔ ((name : List ℕ) × IsTrue (is_skipped_in number (lane_of self.now name))) }
    {
        match place_of(self.rows.as_slice(), number) {
            Some(at) => self.rows[at].skipped,
            None => false,
        }
    }
}
