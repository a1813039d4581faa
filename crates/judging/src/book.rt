//! What an engine keeps of the entries that it took.

ghost use Rattle.std.specs.Prelude.{◌≡◌, ◌≢◌, ◌↔◌, ◌<◌, ◌^◌, ◌-◌, ◌+◌, ◌++◌, ◌∷◌, [], ℕ, List, Some, None, false};
ghost use Rattle.std.specs.Prelude.{is_some, length, take, if◌then◌else◌, nat_lt, IfNone, IfSome, IsTrue, OnOk, OnErr};
ghost use Rattle.std.specs.BTreeMap as tree;
ghost use Rattle.std.specs.List.{list_any};
ghost use Rattle.std.specs.Option.{option_copied, option_map};
ghost use Rattle.std.specs.Ordering.{is_eq, nat_cmp};
ghost use Rattle.std.specs.Str.{bytes_eq};
ghost use Rattle.octets.specs.BytesMap.{by_bytes};
ghost use Rattle.recovery.specs.Lanes.{empty_lane, first_of, is_in, is_skipped_in, lane_of, last_of, with_fix};
ghost use Rattle.recovery.specs.Lanes.{with_skip};
ghost use Rattle.judging.specs.Books.{HasLanes, HasNote, HasReference, IsSame, kept_fault, kept_target, next_number};
ghost use Rattle.judging.specs.Books.{place_of};

use git_object::{ObjectId, RefName};
use octets::Memory;
use recovery::Marks;
use std::alloc::Global;
use std::collections::BTreeMap;
use std::marker::Model;

/// The lanes of references, the target of each entry in the order of numbers (that of an annotation is zeros), the
/// number of each entry by its id, and the faults of the entries that were refused.
#[derive(Drop)]
pub struct Book<F> {
    marks: Marks,
    targets: Vec<ObjectId>,
    places: BTreeMap<ObjectId, u64>,
    faults: BTreeMap<u64, F>,
}

impl<F> Model for Book<F> {
    ghost use Rattle.std.specs.Prelude.{◌+◌, length};
    ghost use Rattle.judging.specs.Books.{Kept, kept_coded};

    ghost Value = { Kept F };

    ghost coded = { kept_coded F.code };

    ghost use Rattle.recovery.specs.Lanes.{IsNew};

    ghost view = { λ b. record {
      marks = b.marks;
      targets = b.targets.items;
      places = b.places.entries;
      faults = b.faults.entries;
    } };

    ghost invariant = { λ b. IsNew (length b.targets.items + 1) b.marks };
}

// Keeps a number under an id. After a refusal nothing has changed.
fn add_place(places: &mut BTreeMap<ObjectId, u64>, id: &ObjectId, number: u64) -> Result<(), Memory>
    ensures put { OnOk result ((q : List ℕ)
        → tree.get by_bytes places.new q
        ≡ (if is_eq (by_bytes id.now q) then Some number else tree.get by_bytes places.old q)) }
    ensures same { OnErr result (places.new.entries ≡ places.old.entries) }
{
    let _had = places.insert(*id, number)?;
    Ok(())
}

// Keeps a target and a number under an id that has none. After a refusal all is answered as before.
fn remember(
    targets: &mut Vec<ObjectId>,
    places: &mut BTreeMap<ObjectId, u64>,
    id: &ObjectId,
    target: &ObjectId,
) -> Result<(), Memory>
    requires { tree.get by_bytes places.old id.now ≡ None }
    ensures target { OnOk result (targets.new.items ≡ targets.old.items ++ target.now ∷ []) }
    ensures put { OnOk result ((q : List ℕ)
        → tree.get by_bytes places.new q
        ≡ (if is_eq (by_bytes id.now q) then Some (length targets.old.items + 1) else tree.get by_bytes places.old q)) }
    ensures same { OnErr result (targets.new.items ≡ targets.old.items) }
    ensures same_places { OnErr result ((q : List ℕ) → tree.get by_bytes places.new q ≡ tree.get by_bytes places.old q) }
{
    let number = targets.len() as u64 + 1;
    add_place(places, id, number)?;
    match targets.push(*target) {
        Ok(()) => Ok(()),
        Err(_) => {
            let _had = places.remove(id);
            Err(Memory)
        }
    }
}

// Takes the last target and an id away.
fn forget(targets: &mut Vec<ObjectId>, places: &mut BTreeMap<ObjectId, u64>, id: &ObjectId)
    ensures target { targets.new.items ≡ take (length targets.old.items - 1) targets.old.items }
    ensures place { (q : List ℕ) → tree.get by_bytes places.new q
        ≡ (if is_eq (by_bytes id.now q) then None else tree.get by_bytes places.old q) }
{
    let _last = targets.pop();
    let _had = places.remove(id);
}

// Keeps the fault of a number, where there is one. After a refusal nothing has changed.
fn add_fault<F: Drop>(
    faults: &mut BTreeMap<u64, F>,
    number: u64,
    fault: Option<F>,
) -> Result<(), Memory>
    ensures put { OnOk result ((f : F) → fault ≡ Some f → tree.get nat_cmp faults.new number ≡ Some f) }
    ensures others { OnOk result ((q : ℕ) → q ≢ number → tree.get nat_cmp faults.new q ≡ tree.get nat_cmp faults.old q) }
    ensures same { OnErr result (faults.new.entries ≡ faults.old.entries) }
{
    if let Some(fault) = fault {
        let _had = faults.insert(number, fault)?;
    }
    Ok(())
}

impl<F> Book<F> {
    /// Nothing. It takes no memory.
    pub fn new(alloc: Global) -> Book<F>
        ensures lanes { (name : List ℕ) → lane_of result.marks name ≡ empty_lane }
        ensures targets { result.targets ≡ [] }
        ensures places { result.places ≡ [] }
        ensures faults { result.faults ≡ [] }
    {
        Book {
            marks: Marks::new(alloc),
            targets: Vec::new(alloc),
            places: BTreeMap::new(alloc),
            faults: BTreeMap::new(alloc),
        }
    }

    /// How many entries there are.
    pub fn len(&self) -> u64
        ensures count { result ≡ length self.now.targets }
        ensures small { result < 2 ^ 63 }
    {
        self.targets.len() as u64
    }

    /// The number of the entry of an id.
    pub fn place(&self, id: &ObjectId) -> Option<u64>
        ensures { result ≡ place_of self.now id.now }
    {
        self.places.get(id).copied()
    }

    /// The target of an entry.
    pub fn target(&self, number: u64) -> Option<ObjectId>
        ensures { result ≡ kept_target self.now number }
    {
        if number == 0 {
            return None;
        }
        self.targets.as_slice().get((number - 1) as usize).copied()
    }

    /// The fault of an entry, lent.
    pub fn fault(&self, number: u64) -> Option<&F>
        ensures { option_copied result ≡ kept_fault self.now number }
    {
        self.faults.get(&number)
    }

    /// The greatest number of a reference that is not skipped.
    pub fn prior(&self, name: &RefName) -> Option<u64>
        ensures { result ≡ last_of (lane_of self.now.marks name.now).unskipped }
    {
        self.marks.prior(name)
    }

    /// The least number of a reference that is pending.
    pub fn first_pending(&self, name: &RefName) -> Option<u64>
        ensures { result ≡ first_of (lane_of self.now.marks name.now).pending }
    {
        self.marks.first_pending(name)
    }

    /// Whether a number of a reference that is greater than this one is pending.
    pub fn is_pending_after(&self, name: &RefName, above: u64) -> bool
        ensures { result ≡ list_any (nat_lt above) (lane_of self.now.marks name.now).pending }
    {
        self.marks.is_pending_after(name, above)
    }

    /// Whether a number of a reference is pending.
    pub fn is_pending(&self, name: &RefName, number: u64) -> bool
        ensures { result ≡ is_in number (lane_of self.now.marks name.now).pending }
    {
        self.marks.is_pending(name, number)
    }

    /// How many entries a reference has.
    pub fn count(&self, name: &RefName) -> u64
        ensures { result ≡ length (lane_of self.now.marks name.now).pushed }
    {
        self.marks.count(name)
    }

    /// The reference of which a number is.
    pub fn name_of(&self, number: u64) -> Option<&RefName>
        ensures found { IfSome result (λ name. IsTrue (is_in number (lane_of self.now.marks name.now).pushed)) }
        ensures none { IfNone result ((name : List ℕ) → is_in number (lane_of self.now.marks name).pushed ≡ false) }
    {
        self.marks.name_of(number)
    }

    /// Whether an entry of a reference is skipped.
    pub fn is_skipped(&self, number: u64) -> bool
        ensures { IsTrue result ↔ ((name : List ℕ) × IsTrue (is_skipped_in number (lane_of self.now.marks name))) }
    {
        self.marks.is_skipped(number)
    }

    /// Skips a number.
    pub fn skip(&mut self, number: u64)
        ensures { HasLanes (λ name lane. with_skip number lane) self.old self.new }
    {
        self.marks.skip(number);
    }

    /// Takes the numbers strictly between the two from what is pending of a reference.
    pub fn fix(&mut self, name: &RefName, above: u64, below: u64)
        ensures { HasLanes (λ other lane. if bytes_eq name.now other then with_fix above below lane else lane) self.old
            self.new }
    {
        self.marks.fix(name, above, below);
    }

    /// Keeps an annotation of an id that is not there yet. After a refusal all is answered as before.
    pub fn add_note(&mut self, id: &ObjectId) -> Result<(), Memory>
        requires { place_of self.old id.now ≡ None }
        ensures added { OnOk result (HasNote id.now self.old self.new) }
        ensures same { OnErr result (IsSame self.old self.new) }
    {
        remember(&mut self.targets, &mut self.places, id, &ObjectId::zeros())?;
        Ok(())
    }
}

impl<F: Drop> Book<F> {
    /// Keeps an entry of a reference, under an id that is not there yet, with its fault, where it is refused.
    /// After a refusal all is answered as before.
    pub fn add_reference(
        &mut self,
        id: &ObjectId,
        name: &RefName,
        target: &ObjectId,
        fault: Option<F>,
    ) -> Result<(), Memory>
        requires { place_of self.old id.now ≡ None }
        ensures added { OnOk result (HasReference id.now name.now target.now fault self.old self.new) }
        ensures same { OnErr result (IsSame self.old self.new) }
    {
        let number = self.targets.len() as u64 + 1;
        let refused = fault.is_some();
        add_fault(&mut self.faults, number, fault)?;
        remember(&mut self.targets, &mut self.places, id, target)?;
        match self.marks.push(name, number, refused) {
            Ok(()) => Ok(()),
            Err(why) => {
                forget(&mut self.targets, &mut self.places, id);
                Err(why)
            }
        }
    }
}
