//! A store with a cache before it.

ghost use Rattle.std.specs.Prelude.{◌≡◌, ◌+◌, ◌-◌, ◌^◌, min};

use crate::cached_objects::CachedObjects;
use git_object::{Object, ObjectId, RefName};
use keeper_api::{Change, Keeper, KeeperFault, RefValue};
use std::alloc::Global;
use std::marker::Model;

/// A store with a cache before it. Each call is that of the store, but an object that was read since the last commit
/// may be answered from memory. What the store holds, its faults and what a stop may leave are the store's; a read is
/// counted whichever way it is answered.
#[derive(Drop)]
pub struct CachedKeeper<R: Keeper> {
    inner: R,
    cached: CachedObjects,
    // How many reads were answered from memory.
    answered: u64,
}

impl<R: Keeper> Model for CachedKeeper<R> {
    ghost use Rattle.std.specs.Prelude.{ℕ};
    ghost use Rattle.keeper_layers.specs.Caching.{IsCache};

    ghost Value = { R × ℕ };

    ghost view = { λ k. (k.inner, k.answered) };

    ghost invariant = { λ k. IsCache k.cached (R.content k.inner) };
}

impl<R: Keeper> CachedKeeper<R> {
    /// The store with an empty cache before it. It takes no memory.
    pub fn new(alloc: Global, inner: R) -> CachedKeeper<R>
        ensures { result ≡ (inner, 0) }
    {
        CachedKeeper {
            inner,
            cached: CachedObjects::new(alloc),
            answered: 0,
        }
    }

    /// The store, without its cache.
    pub fn into_inner(self) -> R
        ensures { result ≡ self.0 }
    {
        self.inner
    }
}

impl<R: Keeper> Keeper for CachedKeeper<R> {
    ghost content = { λ k. R.content k.0 };

    ghost tells_left = { λ k. R.tells_left k.0 };

    ghost left = { λ k. R.left k.0 };

    ghost is_clean = { λ k. R.is_clean k.0 };

    ghost faults = { λ k. R.faults k.0 };

    ghost reads = { λ k. min (R.reads k.0 + k.1) (2 ^ 64 - 1) };

    ghost comes = { λ a b. R.comes a.0 b.0 };

    fn read_object(&mut self, alloc: Global, id: &ObjectId) -> Result<Option<Object>, KeeperFault> {
        if let Some(object) = self.cached.find(id) {
            self.answered = self.answered.saturating_add(1);
            return Ok(Some(object));
        }
        let found = self.inner.read_object(alloc, id)?;
        if let Some(object) = &found {
            self.cached.keep(alloc, id, object);
        }
        Ok(found)
    }

    fn read_ref(&mut self, alloc: Global, name: &RefName) -> Result<Option<ObjectId>, KeeperFault> {
        self.inner.read_ref(alloc, name)
    }

    fn next_object_after(
        &mut self,
        alloc: Global,
        after: Option<&ObjectId>,
    ) -> Result<Option<ObjectId>, KeeperFault> {
        self.inner.next_object_after(alloc, after)
    }

    fn next_ref_after(
        &mut self,
        alloc: Global,
        after: Option<&RefName>,
    ) -> Result<Option<RefValue>, KeeperFault> {
        self.inner.next_ref_after(alloc, after)
    }

    fn commit(&mut self, alloc: Global, change: &Change) -> Result<(), KeeperFault> {
        self.cached = CachedObjects::new(alloc);
        self.inner.commit(alloc, change)
    }

    fn faults(&self) -> u64 {
        self.inner.faults()
    }

    ghost held_is_left = { λ keeper. R.held_is_left keeper.0 };

    ghost comes_self = { λ k. R.comes_self k.0 };

    ghost comes_tells = { λ a b. R.comes_tells a.0 b.0 };
}
