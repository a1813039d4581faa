//! One list type for sets that are kept in the order of their keys.

ghost use Rattle.std.specs.Prelude.{◌≡◌, ◌++◌, ◌∷◌, ◌==◌, [], ℕ, List, length, slice_get, true, IfOk, IsOk, OnOk};
ghost use Rattle.std.specs.Prelude.{OnErr};
ghost use Rattle.std.specs.Option.{option_copied};
ghost use Rattle.root_metadata.specs.Risings.{IsRising, has_key, is_next};

use octets::{Copied, Items, Memory};
use std::alloc::Global;
use std::marker::Model;

/// A value that lists are ordered by, by the bytes of its key.
pub trait Keyed: Copied {
    /// What the value is ordered by.
    ghost key: { Self → List ℕ };

    /// The bytes that the value is ordered by.
    fn key(&self) -> &[u8]
        ensures { result.now ≡ key self.now };
}

/// A list in which each item's key is greater by bytes than that of the item before it, so that no key stands twice. It
/// keeps the allocator that it was made with.
#[derive(Drop)]
pub struct Rising<T: Keyed> {
    items: Items<T>,
}

impl<T: Keyed> Model for Rising<T> {
    ghost Value = { List T };

    ghost view = { λ s. s.items };

    ghost invariant = { λ s. IsRising T.key s.items };
}

impl<T: Keyed> Rising<T> {
    /// The empty list. It takes no memory.
    pub fn new(alloc: Global) -> Self
        ensures { result ≡ [] }
    {
        Rising {
            items: Items::new(alloc),
        }
    }

    /// The list of items that rise already, which are moved.
    pub(crate) fn from_rising(items: Items<T>) -> Self
        requires { IsRising T.key items }
        ensures { result ≡ items }
    {
        Rising { items }
    }

    /// The number of items.
    pub fn len(&self) -> usize
        ensures { result ≡ length self.now }
    {
        self.items.len()
    }

    /// Whether there is no item.
    pub fn is_empty(&self) -> bool
        ensures { result ≡ (length self.now == 0) }
    {
        self.items.is_empty()
    }

    /// The item at a place counted from 0, or None at the length and past it.
    pub fn get(&self, at: usize) -> Option<&T>
        ensures { option_copied result ≡ slice_get self.now at }
    {
        self.items.get(at)
    }

    /// The items in rising order, lent.
    pub fn as_slice(&self) -> &[T]
        ensures value { result.now ≡ self.now }
        ensures rising { IsRising T.key self.now }
    {
        self.items.as_slice()
    }

    /// Whether an item has this key.
    pub fn has(&self, key: &[u8]) -> bool
        ensures { result ≡ has_key T.key self.now key.now }
    {
        let items = self.items.as_slice();
        match items.binary_search_by(|item| item.key().cmp(key)) {
            Ok(_) => true,
            Err(_) => false,
        }
    }

    /// Whether an item of this key may be added: it is greater than the last item's.
    pub fn is_next(&self, key: &[u8]) -> bool
        ensures { result ≡ is_next T.key self.now key.now }
    {
        match self.items.as_slice().last() {
            Some(last) => last.key().cmp(key).is_lt(),
            None => true,
        }
    }

    /// Adds an item at the end, whose key must be greater than the last item's: `is_next` tells it. After a refusal the
    /// list is as before, and the item is dropped.
    pub fn push(&mut self, item: T) -> Result<(), Memory>
        requires { is_next T.key self.old (T.key item) ≡ true }
        ensures added { OnOk result (self.new ≡ self.old ++ item ∷ []) }
        ensures same { OnErr result (self.new ≡ self.old) }
    {
        self.items.push(item)?;
        Ok(())
    }

    /// An equal list. That of the empty list takes no memory.
    pub fn copy(&self) -> Result<Self, Memory>
        ensures same { IfOk result (λ list. list ≡ self.now) }
        ensures free { length self.now ≡ 0 → IsOk result }
    {
        Ok(Rising {
            items: self.items.copy()?,
        })
    }
}
