//! A store of one of two kinds.

ghost use Rattle.keeper_layers.specs.Keepers.{both_come, by_kind, left_by_kind};
ghost use Rattle.keeper_layers.specs.Keepers.{comes_of_itself, left_of_kind, tells_of_kind};

use git_object::{Object, ObjectId, RefName};
use keeper_api::{Change, Keeper, KeeperFault, RefValue};
use std::alloc::Global;

/// A store of one of two kinds. Each call is that of the store that it is, and each promise is that store's: what it
/// holds, what a stop may leave, its faults, its reads, and of what it came, which is a store of the same kind.
#[derive(Drop)]
pub enum EitherKeeper<A, B> {
    First(A),
    Second(B),
}

impl<A: Keeper, B: Keeper> Keeper for EitherKeeper<A, B> {
    ghost content = { by_kind A.content B.content };

    ghost tells_left = { by_kind A.tells_left B.tells_left };

    ghost left = { left_by_kind A.left B.left };

    ghost is_clean = { by_kind A.is_clean B.is_clean };

    ghost faults = { by_kind A.faults B.faults };

    ghost reads = { by_kind A.reads B.reads };

    ghost comes = { both_come A.comes B.comes };

    fn read_object(&mut self, alloc: Global, id: &ObjectId) -> Result<Option<Object>, KeeperFault> {
        match self {
            EitherKeeper::First(keeper) => keeper.read_object(alloc, id),
            EitherKeeper::Second(keeper) => keeper.read_object(alloc, id),
        }
    }

    fn read_ref(&mut self, alloc: Global, name: &RefName) -> Result<Option<ObjectId>, KeeperFault> {
        match self {
            EitherKeeper::First(keeper) => keeper.read_ref(alloc, name),
            EitherKeeper::Second(keeper) => keeper.read_ref(alloc, name),
        }
    }

    fn next_object_after(
        &mut self,
        alloc: Global,
        after: Option<&ObjectId>,
    ) -> Result<Option<ObjectId>, KeeperFault> {
        match self {
            EitherKeeper::First(keeper) => keeper.next_object_after(alloc, after),
            EitherKeeper::Second(keeper) => keeper.next_object_after(alloc, after),
        }
    }

    fn next_ref_after(
        &mut self,
        alloc: Global,
        after: Option<&RefName>,
    ) -> Result<Option<RefValue>, KeeperFault> {
        match self {
            EitherKeeper::First(keeper) => keeper.next_ref_after(alloc, after),
            EitherKeeper::Second(keeper) => keeper.next_ref_after(alloc, after),
        }
    }

    fn commit(&mut self, alloc: Global, change: &Change) -> Result<(), KeeperFault> {
        match self {
            EitherKeeper::First(keeper) => keeper.commit(alloc, change),
            EitherKeeper::Second(keeper) => keeper.commit(alloc, change),
        }
    }

    fn faults(&self) -> u64 {
        match self {
            EitherKeeper::First(keeper) => keeper.faults(),
            EitherKeeper::Second(keeper) => keeper.faults(),
        }
    }

    ghost held_is_left = { left_of_kind A.tells_left A.content A.left B.tells_left B.content B.left
        A.held_is_left B.held_is_left };

    ghost comes_self = { comes_of_itself A.comes B.comes A.comes_self B.comes_self };

    ghost comes_tells = { tells_of_kind A.comes A.content A.tells_left A.is_clean A.faults
        B.comes B.content B.tells_left B.is_clean B.faults A.comes_tells B.comes_tells };
}
