//! A store that is lent.

ghost use Rattle.std.specs.Prelude.{false};
ghost use Rattle.keeper_layers.specs.Lending.{tells_lent};

use git_object::{Object, ObjectId, RefName};
use keeper_api::{Change, Keeper, KeeperFault, RefValue};
use std::alloc::Global;

/// Another's store, lent. Each call is that of the store, and so are what it holds, its faults and its reads. It tells
/// nothing of what a stop may leave.
#[derive(Drop)]
pub struct LentKeeper<'a, R: Keeper> {
    pub store: &'a mut R,
}

impl<'a, R: Keeper> Keeper for LentKeeper<'a, R> {
    ghost content = { λ k. R.content k.store.now };

    ghost tells_left = { λ k. false };

    ghost left = { λ k r. Unit {0} };

    ghost is_clean = { λ k. R.is_clean k.store.now };

    ghost faults = { λ k. R.faults k.store.now };

    ghost reads = { λ k. R.reads k.store.now };

    ghost comes = { λ a b. R.comes a.store.now b.store.now };

    fn read_object(&mut self, alloc: Global, id: &ObjectId) -> Result<Option<Object>, KeeperFault> {
        self.store.read_object(alloc, id)
    }

    fn read_ref(&mut self, alloc: Global, name: &RefName) -> Result<Option<ObjectId>, KeeperFault> {
        self.store.read_ref(alloc, name)
    }

    fn next_object_after(
        &mut self,
        alloc: Global,
        after: Option<&ObjectId>,
    ) -> Result<Option<ObjectId>, KeeperFault> {
        self.store.next_object_after(alloc, after)
    }

    fn next_ref_after(
        &mut self,
        alloc: Global,
        after: Option<&RefName>,
    ) -> Result<Option<RefValue>, KeeperFault> {
        self.store.next_ref_after(alloc, after)
    }

    fn commit(&mut self, alloc: Global, change: &Change) -> Result<(), KeeperFault> {
        self.store.commit(alloc, change)
    }

    fn faults(&self) -> u64 {
        self.store.faults()
    }

    ghost held_is_left = { λ keeper r told has. tt };

    ghost comes_self = { λ k. R.comes_self k.store.now };

    ghost comes_tells = { λ a b came. tells_lent (R.content a.store.now) (R.content b.store.now)
        (R.tells_left a.store.now) (R.tells_left b.store.now) (R.is_clean a.store.now) (R.is_clean b.store.now)
        (R.faults a.store.now) (R.faults b.store.now) (R.comes_tells a.store.now b.store.now came) };
}
