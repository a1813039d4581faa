//! Texts that were read, and what each was read as.

ghost use Rattle.std.specs.Prelude.{◌≡◌, ◌<◌, ◌≤◌, ◌+◌, ℕ, List, Some, if◌then◌else◌, IfOk, IfSome, OnErr, OnOk};
ghost use Rattle.std.specs.BTreeMap as tree;
ghost use Rattle.std.specs.BTreeMap.{btree_map_len};
ghost use Rattle.std.specs.Option.{option_copied};
ghost use Rattle.std.specs.Ordering.{is_eq};
ghost use Rattle.octets.specs.BytesMap.{by_bytes};

use octets::{Memory, Octets};
use std::alloc::Global;
use std::collections::BTreeMap;
use std::marker::Model;

// The most texts of one kind, and the most bytes of them.
const MOST_TEXTS: usize = 4096;

const MOST_BYTES: usize = 16_777_216;

/// A value that texts are read as.
pub trait FromText: Drop + Sized {
    ghost use Rattle.std.specs.Prelude.{ℕ, List, Option};

    /// What a text is read as; None where it is refused.
    ghost reading: { List ℕ → Option Self };

    /// What the text is read as.
    fn from_text(alloc: Global, text: &[u8]) -> Result<Option<Self>, Memory>
        ensures { IfOk result (λ found. found ≡ reading text.now) };

    /// An equal value, or a refusal.
    fn copied(&self) -> Result<Self, Memory>
        ensures { IfOk result (λ copy. copy ≡ self.now) };
}

/// Texts beside what each was read as: at most 4,096. Where there is no room for one more, all are let go first.
#[derive(Drop)]
pub struct Texts<T: FromText> {
    rows: BTreeMap<Octets, Option<T>>,
    bytes: usize,
}

impl<T: FromText> Model for Texts<T> {
    ghost use Rattle.std.specs.Prelude.{◌≤◌, ℕ};
    ghost use Rattle.std.specs.BTreeMap.{btree_map_len};
    ghost use Rattle.known_signers.specs.ReadTexts.{AreRead};

    ghost Value = { ℕ };

    ghost view = { λ t. btree_map_len t.rows };

    ghost invariant = { λ t. AreRead T.reading t.rows × (btree_map_len t.rows ≤ 4096) };
}

// Keeps what a text was read as. Where there is no memory for it, nothing changes.
fn add_row<T: FromText>(
    rows: &mut BTreeMap<Octets, Option<T>>,
    text: Octets,
    found: Option<T>,
) -> Result<(), Memory>
    ensures put { OnOk result ((q : List ℕ) → tree.get by_bytes rows.new q
        ≡ (if is_eq (by_bytes text q) then Some found else tree.get by_bytes rows.old q)) }
    ensures one { OnOk result (btree_map_len rows.new ≤ btree_map_len rows.old + 1) }
    ensures same { OnErr result (rows.new.entries ≡ rows.old.entries) }
{
    let _had = rows.insert(text, found)?;
    Ok(())
}

fn copy_of<T: FromText>(found: &Option<T>) -> Result<Option<T>, Memory>
    ensures { IfOk result (λ copy. copy ≡ found.now) }
{
    match found {
        Some(found) => Ok(Some(found.copied()?)),
        None => Ok(None),
    }
}

impl<T: FromText> Texts<T> {
    /// None. It takes no memory.
    pub fn new(alloc: Global) -> Texts<T> {
        Texts {
            rows: BTreeMap::new(alloc),
            bytes: 0,
        }
    }

    // What was found of a text.
    fn find(&self, text: &Octets) -> Option<&Option<T>>
        ensures { IfSome (option_copied result) (λ found. found ≡ T.reading text.now) }
    {
        self.rows.get(text)
    }

    // Lets all go where there is no room for one more of so many bytes.
    fn make_room(&mut self, bytes: usize)
        ensures { self.new < 4096 }
    {
        if self.rows.len() < MOST_TEXTS && self.bytes.saturating_add(bytes) <= MOST_BYTES {
            return;
        }
        self.rows.clear();
        self.bytes = 0;
    }

    // Keeps what a text was read as, where there is memory for it.
    fn keep(&mut self, text: Octets, found: Option<T>)
        requires { found ≡ T.reading text }
    {
        let bytes = text.len();
        self.make_room(bytes);
        match add_row(&mut self.rows, text, found) {
            Ok(()) => self.bytes = self.bytes.saturating_add(bytes),
            Err(Memory) => {}
        }
    }

    /// What a text is read as. One that was read before is not read again. Of what is kept a copy was made once, so
    /// making one again fails for want of memory alone.
    pub fn read(&mut self, alloc: Global, text: &[u8]) -> Result<Option<T>, Memory>
        ensures { IfOk result (λ found. found ≡ T.reading text.now) }
    {
        let key = Octets::from_slice(alloc, text)?;
        if let Some(found) = self.find(&key) {
            return copy_of(found);
        }
        let found = T::from_text(alloc, text)?;
        match copy_of(&found) {
            Ok(copy) => self.keep(key, copy),
            Err(Memory) => {}
        }
        Ok(found)
    }
}
