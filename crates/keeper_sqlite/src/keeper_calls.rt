//! The calls of the keeper over a database.

ghost use Rattle.std.proofs.Math.Nat.{le_refl};
ghost use Rattle.keeper_api.specs.Keepers.{same_tells};

use crate::SqlKeeper;
use git_object::{Object, ObjectId, RefName};
use keeper_api::{Change, Keeper, KeeperFault, RefValue};
use sqlite::Alter;
use std::alloc::Global;

/// It tells the rows of the last commit, where the tables are those of the schema, and what a stop may leave, also
/// once a commit has shut the database.
impl<S: Alter> Keeper for SqlKeeper<S> {
    ghost use Rattle.keeper_sqlite.specs.Keepers.{ComesOf, content_of, is_clean_of, tells_left_of, left_of};
    ghost use Rattle.keeper_sqlite.specs.Laws.{held_left};

    ghost content = { λ k. content_of S.Store k };

    ghost tells_left = { λ k. tells_left_of S.Store k };

    ghost left = { λ k r. left_of S.Store k r };

    ghost is_clean = { λ k. is_clean_of S.Store k };

    ghost faults = { λ k. k.faults };

    ghost comes = { λ k l. ComesOf S.Store k l };

    ghost reads = { λ k. k.reads };

    fn read_object(&mut self, alloc: Global, id: &ObjectId) -> Result<Option<Object>, KeeperFault> {
        self.count_read();
        let found = self.object_at(alloc, id);
        self.counted(found)
    }

    fn read_ref(
        &mut self,
        _alloc: Global,
        name: &RefName,
    ) -> Result<Option<ObjectId>, KeeperFault> {
        let found = self.ref_at(name);
        self.counted(found)
    }

    fn next_object_after(
        &mut self,
        _alloc: Global,
        after: Option<&ObjectId>,
    ) -> Result<Option<ObjectId>, KeeperFault> {
        let found = self.object_after(after);
        self.counted(found)
    }

    fn next_ref_after(
        &mut self,
        alloc: Global,
        after: Option<&RefName>,
    ) -> Result<Option<RefValue>, KeeperFault> {
        let found = self.ref_after(alloc, after);
        self.counted(found)
    }

    fn commit(&mut self, _alloc: Global, change: &Change) -> Result<(), KeeperFault> {
        let made = self.make(change);
        self.counted(made)
    }

    fn faults(&self) -> u64 {
        self.fault_count()
    }

    ghost comes_self = { λ k. record { later = le_refl k.faults; on = same_tells _ _ _ k.faults k.faults } };

    ghost comes_tells = { λ k l came. came.on };

    ghost held_is_left = { λ k r told held. held_left k.known _ _ _ r (S.Store.stays k.conn.store) held };
}
