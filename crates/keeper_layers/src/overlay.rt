//! A store with a change laid over it.

ghost use Rattle.std.specs.Prelude.{◌≡◌, false, Option, Some, IfErr, IfOk};
ghost use Rattle.std.proofs.Common.{◌∙◌, refl};
ghost use Rattle.std.specs.FinMap.{get};
ghost use Rattle.octets.specs.BytesMap.{BytesMap};
ghost use Rattle.git_object.specs.Objects.{Pair};
ghost use Rattle.keeper_api.specs.Changes.{changed, with_objects};
ghost use Rattle.keeper_api.specs.Undisturbed.{Undisturbed};
ghost use Rattle.keeper_api.specs.declared.keeper_faults.KeeperFault.TheVariants as keeper;
ghost use Rattle.keeper_layers.specs.Overlaying.{FindsLast, over, tells_over};

use crate::IndexedChange;
use git_object::{Object, ObjectId, RefName};
use keeper_api::{Change, Keeper, KeeperFault, RefValue};
use octets::Copied;
use std::alloc::Global;

/// Answers of objects what the store under it would answer after a commit of the change, and counts its own reads. It
/// is to be asked of objects alone: each other call is answered by `Memory`. Nothing is ever changed, and once it is
/// dropped the store under it is as it was.
#[derive(Drop)]
pub struct Overlay<'a, R: Keeper> {
    pub under: &'a mut R,
    pub change: &'a IndexedChange,
    pub reads: u64,
}

// The object of a change at an id, copied.
fn copied_object(change: &IndexedChange, id: &ObjectId) -> Result<Option<Object>, KeeperFault>
    ensures found { IfOk result (FindsLast change.now.objects id.now) }
    ensures memory { IfErr result (λ fault. fault ≡ keeper.Memory) }
{
    match change.object(id) {
        Some(object) => Ok(Some(object.copied()?)),
        None => Ok(None),
    }
}

impl<'a, R: Keeper> Keeper for Overlay<'a, R> {
    ghost content = { λ k. over k.change.now (R.content k.under.now) };

    ghost tells_left = { λ k. false };

    ghost left = { λ k r. Unit {0} };

    ghost is_clean = { λ k. R.is_clean k.under.now };

    ghost faults = { λ k. R.faults k.under.now };

    ghost reads = { λ k. k.reads };

    ghost comes = { λ a b. (b.under.ghost_name ≡ a.under.ghost_name) × (b.change.now ≡ a.change.now)
        × Undisturbed R.Keeper a.under.now b.under.now };

    fn read_object(&mut self, alloc: Global, id: &ObjectId) -> Result<Option<Object>, KeeperFault> {
        self.reads = self.reads.saturating_add(1);
        if let Some(object) = copied_object(self.change, id)? {
            return Ok(Some(object));
        }
        self.under.read_object(alloc, id)
    }

    fn read_ref(
        &mut self,
        _alloc: Global,
        _name: &RefName,
    ) -> Result<Option<ObjectId>, KeeperFault> {
        Err(KeeperFault::Memory)
    }

    fn next_object_after(
        &mut self,
        _alloc: Global,
        _after: Option<&ObjectId>,
    ) -> Result<Option<ObjectId>, KeeperFault> {
        Err(KeeperFault::Memory)
    }

    fn next_ref_after(
        &mut self,
        _alloc: Global,
        _after: Option<&RefName>,
    ) -> Result<Option<RefValue>, KeeperFault> {
        Err(KeeperFault::Memory)
    }

    fn commit(&mut self, _alloc: Global, _change: &Change) -> Result<(), KeeperFault> {
        Err(KeeperFault::Memory)
    }

    fn faults(&self) -> u64 {
        self.under.faults()
    }

    ghost held_is_left = { λ keeper r told has. tt };

    ghost comes_self = { λ k. (
      refl,
      refl,
      record {
        content = λ r told. told;
        tells = λ told. told;
        left = λ told r has. has;
        comes = λ first came. came;
      },
    ) };

    ghost comes_tells = { λ a b came. tells_over a.change.now b.change.now (R.content a.under.now) (R.content b.under.now)
        (R.tells_left a.under.now) (R.tells_left b.under.now) (R.is_clean a.under.now) (R.is_clean b.under.now)
        (R.faults a.under.now) (R.faults b.under.now)
        (R.comes_tells a.under.now b.under.now (came.2.comes a.under.now (R.comes_self a.under.now))) };
}
