//! The calls of the keeper in memory.

ghost use Rattle.std.specs.Prelude.{◌≡◌, ◌↔◌, Some, IfOk, IsErrOf, IsOk, IsTrue, None, true, false, refl};
ghost use Rattle.std.specs.Option.{option_map, option_copied};
ghost use Rattle.std.specs.FinMap.{get};
ghost use Rattle.std.proofs.lemmas.Bool.{false≢true};
ghost use Rattle.octets.specs.BytesMap.{entry_after};
ghost use Rattle.octets.specs.Calls.{after_call, fails_next};
ghost use Rattle.octets.specs.Causes.{HasCause, one_more};
ghost use Rattle.keeper_api.specs.Faults.{keeper_failed};
ghost use Rattle.octets.specs.Content.{Told};
ghost use Rattle.keeper_api.specs.Changes.{ref_value};
ghost use Rattle.keeper_api.specs.Keepers.{Commits};
ghost use Rattle.keeper_api.specs.Stores.{calls_after, held_after, keeps_next};

use crate::{Change, Keeper, KeeperFault, MemKeeper, RefValue};
use git_object::{Object, ObjectId, RefName};
use std::alloc::Global;

/// A call fails exactly where its number is listed, a commit that is to be kept and finds no memory aside. Every
/// call is counted, `faults` aside. Of what is not there no call answers want of memory.
impl Keeper for MemKeeper {
    ghost content = { λ k. Some k.held };

    ghost tells_left = { λ k. false };

    ghost left = { λ k r. ⊥ };

    ghost is_clean = { λ k. true };

    ghost faults = { λ k. k.calls.faults };

    ghost reads = { λ k. k.reads };

    ghost comes = { λ k l. Unit {0} };

    fn read_object(&mut self, _alloc: Global, id: &ObjectId) -> Result<Option<Object>, KeeperFault>
        ensures found { IfOk result (λ found. found ≡ get self.old.held.objects id.now) }
        ensures none { get self.old.held.objects id.now ≡ None → fails_next self.old.calls ≡ false → IsOk result }
        ensures listed { IsErrOf result KeeperFault.Failed ↔ IsTrue (fails_next self.old.calls) }
        ensures after { self.new ≡ record self.old {
          calls = after_call self.old.calls;
          reads = one_more self.old.reads;
        } }
        ensures cause { HasCause keeper_failed self.old.calls.faults self.new.calls.faults result }
    {
        self.count_read();
        if self.fails() {
            return Err(KeeperFault::Failed);
        }
        Ok(self.object_at(id)?)
    }

    fn read_ref(&mut self, _alloc: Global, name: &RefName) -> Result<Option<ObjectId>, KeeperFault>
        ensures found { IfOk result (λ found. found ≡ get self.old.held.refs name.now) }
        ensures free { IsErrOf result KeeperFault.Memory → ⊥ }
        ensures listed { IsErrOf result KeeperFault.Failed ↔ IsTrue (fails_next self.old.calls) }
        ensures after { self.new ≡ record self.old { calls = after_call self.old.calls } }
        ensures cause { HasCause keeper_failed self.old.calls.faults self.new.calls.faults result }
    {
        if self.fails() {
            return Err(KeeperFault::Failed);
        }
        Ok(self.ref_at(name))
    }

    fn next_object_after(
        &mut self,
        _alloc: Global,
        after: Option<&ObjectId>,
    ) -> Result<Option<ObjectId>, KeeperFault>
        ensures found { IfOk result (λ found. found ≡ option_map (λ e. e.0)
            (entry_after self.old.held.objects (option_copied after.entry))) }
        ensures free { IsErrOf result KeeperFault.Memory → ⊥ }
        ensures listed { IsErrOf result KeeperFault.Failed ↔ IsTrue (fails_next self.old.calls) }
        ensures after { self.new ≡ record self.old { calls = after_call self.old.calls } }
        ensures cause { HasCause keeper_failed self.old.calls.faults self.new.calls.faults result }
    {
        if self.fails() {
            return Err(KeeperFault::Failed);
        }
        Ok(self.object_after(after))
    }

    fn next_ref_after(
        &mut self,
        _alloc: Global,
        after: Option<&RefName>,
    ) -> Result<Option<RefValue>, KeeperFault>
        ensures found { IfOk result (λ found. found ≡ option_map ref_value
            (entry_after self.old.held.refs (option_copied after.entry))) }
        ensures none { entry_after self.old.held.refs (option_copied after.entry) ≡ None
            → fails_next self.old.calls ≡ false → IsOk result }
        ensures listed { IsErrOf result KeeperFault.Failed ↔ IsTrue (fails_next self.old.calls) }
        ensures after { self.new ≡ record self.old { calls = after_call self.old.calls } }
        ensures cause { HasCause keeper_failed self.old.calls.faults self.new.calls.faults result }
    {
        if self.fails() {
            return Err(KeeperFault::Failed);
        }
        Ok(self.ref_after(after)?)
    }

    fn commit(&mut self, alloc: Global, change: &Change) -> Result<(), KeeperFault>
        ensures content { Told (Commits change.now result) (Some self.old.held) (Some self.new.held) }
        ensures answered { IsOk result → fails_next self.old.calls ≡ false }
        ensures listed { IsErrOf result KeeperFault.Failed → IsTrue (fails_next self.old.calls) }
        ensures dropped { IsTrue (fails_next self.old.calls) → keeps_next self.old ≡ false
            → IsErrOf result KeeperFault.Failed }
        ensures after { self.new ≡ record self.old {
          held = held_after self.old change.now result;
          calls = calls_after self.old.calls result;
        } }
        ensures cause { HasCause keeper_failed self.old.calls.faults self.new.calls.faults result }
    {
        self.try_commit(alloc, change)
    }

    fn faults(&self) -> u64
        ensures { result ≡ self.now.calls.faults }
    {
        self.fault_count()
    }

    ghost held_is_left = { λ k r told. absurd (false≢true told) };

    ghost comes_self = { λ k. tt };

    ghost comes_tells = { λ k l came. record {
      was_clean = λ now. now;
      content = λ now before_end same told. refl;
      left = λ now before_end same told. told;
    } };
}
