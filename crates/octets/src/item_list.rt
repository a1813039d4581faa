//! One list type for the items of every crate, which contracts see as the list itself.

ghost use Rattle.std.specs.Prelude.{◌≡◌, ◌++◌, ◌∷◌, ◌==◌, [], List, length, reverse, slice_get, IfOk, IsOk, OnOk};
ghost use Rattle.std.specs.Prelude.{OnErr};
ghost use Rattle.std.specs.Option.{option_copied};

use crate::Memory;
use std::alloc::Global;
use std::marker::Model;

/// A value of which an equal one can be made.
pub trait Copied: Drop + Sized {
    /// An equal value.
    fn copied(&self) -> Result<Self, Memory>
        ensures { IfOk result (λ copy. copy ≡ self.now) };
}

/// A list of items. It keeps the allocator that it was made with.
#[derive(Drop)]
pub struct Items<T> {
    items: Vec<T>,
}

impl<T> Model for Items<T> {
    ghost Value = { List T };

    ghost view = { λ s. s.items.items };
}

impl<T> Items<T> {
    /// The empty list. It takes no memory.
    pub fn new(alloc: Global) -> Self
        ensures { result ≡ [] }
    {
        Items {
            items: Vec::new(alloc),
        }
    }

    /// The number of items.
    pub fn len(&self) -> usize
        ensures { result ≡ length self.now }
    {
        self.items.len()
    }

    /// Whether there is no item.
    pub fn is_empty(&self) -> bool
        ensures { result ≡ (length self.now == 0) }
    {
        self.items.is_empty()
    }

    /// The item at a place counted from 0, or None at the length and past it.
    pub fn get(&self, at: usize) -> Option<&T>
        ensures { option_copied result ≡ slice_get self.now at }
    {
        self.items.as_slice().get(at)
    }

    /// The items, lent.
    pub fn as_slice(&self) -> &[T]
        ensures { result.now ≡ self.now }
    {
        self.items.as_slice()
    }
}

impl<T: Drop> Items<T> {
    /// Adds an item at the end. After a refusal the list is as before, and the item is dropped.
    pub fn push(&mut self, item: T) -> Result<(), Memory>
        ensures added { OnOk result (self.new ≡ self.old ++ item ∷ []) }
        ensures same { OnErr result (self.new ≡ self.old) }
    {
        match self.items.push(item) {
            Ok(()) => Ok(()),
            Err(_) => Err(Memory),
        }
    }

    /// Turns the order round, in place. It takes no memory.
    pub fn reverse(&mut self)
        ensures { self.new ≡ reverse self.old }
    {
        self.items.as_mut_slice().reverse();
    }
}

impl<T: Copied> Items<T> {
    /// An equal list. That of the empty list takes no memory.
    pub fn copy(&self) -> Result<Self, Memory>
        ensures same { IfOk result (λ list. list ≡ self.now) }
        ensures free { length self.now ≡ 0 → IsOk result }
    {
        let mut items = Vec::new(*self.items.allocator());
        for item in self.as_slice() {
            let copy = item.copied()?;
            if items.push(copy).is_err() {
                return Err(Memory);
            }
        }
        Ok(Items { items })
    }
}
