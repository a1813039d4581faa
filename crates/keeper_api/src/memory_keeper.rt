//! The keeper in memory.

ghost use Rattle.std.specs.Prelude.{◌≡◌, ◌≤◌, [], IfOk, IsErrOf, IsOk, IsTrue, None, false, OnOk, OnErr};
ghost use Rattle.std.specs.Option.{option_map, option_copied};
ghost use Rattle.std.specs.FinMap.{get};
ghost use Rattle.octets.specs.BytesMap.{entry_after};
ghost use Rattle.octets.specs.Calls.{after_call, fails_next};
ghost use Rattle.octets.specs.Causes.{HasCause, one_more};
ghost use Rattle.keeper_api.specs.Faults.{keeper_failed};
ghost use Rattle.git_object.specs.Repository.{empty_repository};
ghost use Rattle.keeper_api.specs.Changes.{changed, ref_value};
ghost use Rattle.keeper_api.specs.Stores.{calls_after, held_after, keeps_next};

use crate::memory_trees::{ObjectTree, RefTree, apply, first_after};
use crate::{Change, KeeperFault, RefValue};
use git_object::{Memory, Object, ObjectId, RefName};
use octets::{Copied, FailingCalls};
use std::alloc::Global;
use std::collections::BTreeMap;
use std::marker::Model;

/// A keeper in memory, which tells what it holds at every moment and leaves nothing at a stop.
#[derive(Drop)]
pub struct MemKeeper {
    objects: ObjectTree,
    refs: RefTree,
    calls: FailingCalls,
    kept: Vec<u64>,
    reads: u64,
}

impl Model for MemKeeper {
    ghost use Rattle.octets.specs.BytesMap.{map_of};
    ghost use Rattle.keeper_api.specs.Stores.{Store, store_coded};

    ghost Value = { Store };

    ghost coded = { store_coded };

    ghost view = { λ s. record {
      held = record { objects = map_of s.objects; refs = map_of s.refs };
      calls = s.calls;
      kept = s.kept.items;
      reads = s.reads;
    } };
}

impl MemKeeper {
    /// A keeper that holds nothing and of whose calls none fails. It takes no memory.
    pub fn new(alloc: Global) -> Self
        ensures { result ≡ record {
          held = empty_repository;
          calls = record { listed = []; made = 0; faults = 0 };
          kept = [];
          reads = 0;
        } }
    {
        MemKeeper {
            objects: BTreeMap::new(alloc),
            refs: BTreeMap::new(alloc),
            calls: FailingCalls::none(alloc),
            kept: Vec::new(alloc),
            reads: 0,
        }
    }

    /// A keeper of the same repository that counts its calls from 1 anew, `faults` not among them. The calls
    /// with the numbers in `calls` fail; of the failing commits those with the numbers in `kept` are kept. It
    /// takes no memory.
    pub fn failing(from: MemKeeper, calls: Vec<u64>, kept: Vec<u64>) -> Self
        ensures { result ≡ record {
          held = from.held;
          calls = record { listed = calls.items; made = 0; faults = 0 };
          kept = kept.items;
          reads = 0;
        } }
    {
        let MemKeeper {
            objects,
            refs,
            calls: _,
            kept: _,
            reads: _,
        } = from;
        MemKeeper {
            objects,
            refs,
            calls: FailingCalls::listed(calls),
            kept,
            reads: 0,
        }
    }

    // Counts a call, and tells whether it is one that fails.
    pub(crate) fn fails(&mut self) -> bool
        ensures answer { result ≡ fails_next self.old.calls }
        ensures counted { self.new ≡ record self.old { calls = after_call self.old.calls } }
        ensures later { self.old.calls.faults ≤ self.new.calls.faults }
        ensures quiet { result ≡ false → self.new.calls.faults ≡ self.old.calls.faults }
        ensures risen { IsTrue result → self.new.calls.faults ≡ one_more self.old.calls.faults }
    {
        self.calls.fails()
    }

    // Whether the next call, where it is a commit that fails, is kept.
    fn keeps_next(&self) -> bool
        ensures { result ≡ keeps_next self.now }
    {
        self.kept.contains(&self.calls.made().saturating_add(1))
    }

    pub(crate) fn count_read(&mut self)
        ensures { self.new ≡ record self.old { reads = one_more self.old.reads } }
    {
        self.reads = self.reads.saturating_add(1);
    }

    pub(crate) fn fault_count(&self) -> u64
        ensures { result ≡ self.now.calls.faults }
    {
        self.calls.faults()
    }

    pub(crate) fn object_at(&self, id: &ObjectId) -> Result<Option<Object>, Memory>
        ensures found { IfOk result (λ found. found ≡ get self.now.held.objects id.now) }
        ensures none { get self.now.held.objects id.now ≡ None → IsOk result }
    {
        match self.objects.get(id) {
            Some(object) => Ok(Some(object.copied()?)),
            None => Ok(None),
        }
    }

    pub(crate) fn ref_at(&self, name: &RefName) -> Option<ObjectId>
        ensures { result ≡ get self.now.held.refs name.now }
    {
        self.refs.get(name).copied()
    }

    pub(crate) fn object_after(&self, after: Option<&ObjectId>) -> Option<ObjectId>
        ensures { result ≡ option_map (λ e. e.0) (entry_after self.now.held.objects (option_copied after.entry)) }
    {
        match first_after(&self.objects, after) {
            Some((id, _)) => Some(*id),
            None => None,
        }
    }

    pub(crate) fn ref_after(&self, after: Option<&RefName>) -> Result<Option<RefValue>, Memory>
        ensures found { IfOk result (λ found. found ≡ option_map ref_value
            (entry_after self.now.held.refs (option_copied after.entry))) }
        ensures none { entry_after self.now.held.refs (option_copied after.entry) ≡ None → IsOk result }
    {
        match first_after(&self.refs, after) {
            Some((name, id)) => Ok(Some(RefValue {
                name: name.copied()?,
                id: *id,
            })),
            None => Ok(None),
        }
    }

    // Makes a change. After a refusal the keeper is as before.
    pub(crate) fn apply(&mut self, alloc: Global, change: &Change) -> Result<(), Memory>
        ensures ok { OnOk result (self.new ≡ record self.old { held = changed change.now self.old.held }) }
        ensures err { OnErr result (self.new ≡ self.old) }
    {
        apply(alloc, &mut self.objects, &mut self.refs, change)
    }

    // A commit: a failing one is kept where its number is listed for that. Want of memory is no fault.
    pub(crate) fn try_commit(&mut self, alloc: Global, change: &Change) -> Result<(), KeeperFault>
        ensures answered { IsOk result → fails_next self.old.calls ≡ false }
        ensures listed { IsErrOf result KeeperFault.Failed → IsTrue (fails_next self.old.calls) }
        ensures dropped { IsTrue (fails_next self.old.calls) → keeps_next self.old ≡ false
            → IsErrOf result KeeperFault.Failed }
        ensures after { self.new ≡ record self.old {
          held = held_after self.old change.now result;
          calls = calls_after self.old.calls result;
        } }
        ensures cause { HasCause keeper_failed self.old.calls.faults self.new.calls.faults result }
    {
        if (!self.calls.fails_next() || self.keeps_next()) && self.apply(alloc, change).is_err() {
            self.calls.count_other();
            return Err(KeeperFault::Memory);
        }
        if self.fails() {
            return Err(KeeperFault::Failed);
        }
        Ok(())
    }
}
