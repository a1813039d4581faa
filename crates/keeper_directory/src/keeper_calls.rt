//! The calls of the keeper over a folder.

ghost use Rattle.std.specs.Prelude.{◌≡◌, None, true, false};
ghost use Rattle.std.proofs.lemmas.Bool.{false≢true};
ghost use Rattle.octets.specs.Causes.{HasCause, one_more};
ghost use Rattle.keeper_api.specs.Faults.{keeper_failed};
ghost use Rattle.keeper_api.specs.Keepers.{same_tells};

use crate::DirKeeper;
use git_object::{Object, ObjectId, RefName};
use keeper_api::{Change, Keeper, KeeperFault, RefValue};
use std::alloc::Global;
use std::fs::File;
use std::rt::Files;

/// It tells nothing. A fault is counted exactly where a call answers `Failed`.
impl<R: Files<File = File>> Keeper for DirKeeper<R> {
    ghost content = { λ _. None };

    ghost tells_left = { λ _. false };

    ghost left = { λ _ _. ⊥ };

    ghost is_clean = { λ _. true };

    ghost faults = { λ k. k.faults };

    ghost reads = { λ k. k.reads };

    ghost comes = { λ _ _. Unit {0} };

    fn read_object(&mut self, alloc: Global, id: &ObjectId) -> Result<Option<Object>, KeeperFault>
        ensures reads { self.new.reads ≡ one_more self.old.reads }
        ensures cause { HasCause keeper_failed self.old.faults self.new.faults result }
    {
        self.object_of(alloc, id)
    }

    fn read_ref(&mut self, alloc: Global, name: &RefName) -> Result<Option<ObjectId>, KeeperFault>
        ensures reads { self.new.reads ≡ self.old.reads }
        ensures cause { HasCause keeper_failed self.old.faults self.new.faults result }
    {
        self.id_of_ref(alloc, name)
    }

    fn next_object_after(
        &mut self,
        alloc: Global,
        after: Option<&ObjectId>,
    ) -> Result<Option<ObjectId>, KeeperFault>
        ensures reads { self.new.reads ≡ self.old.reads }
        ensures cause { HasCause keeper_failed self.old.faults self.new.faults result }
    {
        self.id_after(alloc, after)
    }

    fn next_ref_after(
        &mut self,
        alloc: Global,
        after: Option<&RefName>,
    ) -> Result<Option<RefValue>, KeeperFault>
        ensures reads { self.new.reads ≡ self.old.reads }
        ensures cause { HasCause keeper_failed self.old.faults self.new.faults result }
    {
        self.ref_after(alloc, after)
    }

    fn commit(&mut self, alloc: Global, change: &Change) -> Result<(), KeeperFault>
        ensures reads { self.new.reads ≡ self.old.reads }
        ensures cause { HasCause keeper_failed self.old.faults self.new.faults result }
    {
        self.make(alloc, change)
    }

    fn faults(&self) -> u64
        ensures { result ≡ self.now.faults }
    {
        self.fault_count()
    }

    ghost held_is_left = { λ _ r told. absurd (false≢true told) };

    ghost comes_self = { λ _. tt };

    ghost comes_tells = { λ k l came. same_tells None false true k.faults l.faults };
}
