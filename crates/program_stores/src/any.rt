//! Stores in memory, in folders and in database files as one type of store.

ghost use Rattle.std.specs.Prelude.{None, false, true, refl};
ghost use Rattle.std.proofs.lemmas.Bool.{false≢true};
ghost use Rattle.std.proofs.Math.Nat.{le_refl};
ghost use Rattle.keeper_api.specs.Keepers.{same_tells};
ghost use Rattle.keeper_layers.specs.Keepers.{comes_of_itself, tells_of_kind};
ghost use Rattle.program_stores.specs.Telling.{tells_nothing};

use git_object::{Object, ObjectId, RefName};
use keeper_api::{Change, Keeper, KeeperFault, MemKeeper, RefValue};
use keeper_directory::DirKeeper;
use keeper_layers::{CachedKeeper, EitherKeeper};
use keeper_sqlite::SqlKeeper;
use sqlite::{File, FileStore};
use std::alloc::Global;

type Database = SqlKeeper<FileStore<File>>;

/// A store in a folder, with a cache before it.
pub(crate) type Folder = CachedKeeper<DirKeeper>;

type Kept = EitherKeeper<Folder, Database>;

/// A store in memory, in a folder, or in a database file, by its kind.
pub(crate) type Kinds = EitherKeeper<MemKeeper, Kept>;

/// A store in memory, in a folder, or in a database file. Each call is that of the store that it is, and so are what it
/// holds, its faults and its reads. It tells nothing of what a stop may leave.
#[derive(Drop)]
pub struct AnyKeeper {
    pub(crate) kind: Kinds,
}

impl Keeper for AnyKeeper {
    ghost content = { λ k. ⟦<Kinds as Keeper>⟧.content k.kind };

    ghost tells_left = { λ _. false };

    ghost left = { λ _ _. ⊥ };

    ghost is_clean = { λ k. ⟦<Kinds as Keeper>⟧.is_clean k.kind };

    ghost faults = { λ k. ⟦<Kinds as Keeper>⟧.faults k.kind };

    ghost reads = { λ k. ⟦<Kinds as Keeper>⟧.reads k.kind };

    ghost comes = { λ a b. ⟦<Kinds as Keeper>⟧.comes a.kind b.kind };

    fn read_object(&mut self, alloc: Global, id: &ObjectId) -> Result<Option<Object>, KeeperFault> {
        self.kind.read_object(alloc, id)
    }

    fn read_ref(&mut self, alloc: Global, name: &RefName) -> Result<Option<ObjectId>, KeeperFault> {
        self.kind.read_ref(alloc, name)
    }

    fn next_object_after(
        &mut self,
        alloc: Global,
        after: Option<&ObjectId>,
    ) -> Result<Option<ObjectId>, KeeperFault> {
        self.kind.next_object_after(alloc, after)
    }

    fn next_ref_after(
        &mut self,
        alloc: Global,
        after: Option<&RefName>,
    ) -> Result<Option<RefValue>, KeeperFault> {
        self.kind.next_ref_after(alloc, after)
    }

    fn commit(&mut self, alloc: Global, change: &Change) -> Result<(), KeeperFault> {
        self.kind.commit(alloc, change)
    }

    fn faults(&self) -> u64 {
        self.kind.faults()
    }

    ghost held_is_left = { λ _ r told. absurd (false≢true told) };

    ghost comes_self = { λ k. comes_of_itself ⟦<MemKeeper as Keeper>⟧.comes ⟦<Kept as Keeper>⟧.comes (λ _. tt)
        (comes_of_itself ⟦<Folder as Keeper>⟧.comes ⟦<Database as Keeper>⟧.comes (λ _. tt)
        (λ d. record { later = le_refl d.faults; on = same_tells _ _ _ d.faults d.faults })) k.kind };

    ghost comes_tells = { λ a b came. tells_nothing (tells_of_kind
        ⟦<MemKeeper as Keeper>⟧.comes ⟦<MemKeeper as Keeper>⟧.content ⟦<MemKeeper as Keeper>⟧.tells_left
        ⟦<MemKeeper as Keeper>⟧.is_clean ⟦<MemKeeper as Keeper>⟧.faults
        ⟦<Kept as Keeper>⟧.comes ⟦<Kept as Keeper>⟧.content ⟦<Kept as Keeper>⟧.tells_left
        ⟦<Kept as Keeper>⟧.is_clean ⟦<Kept as Keeper>⟧.faults
        (λ k l met. record {
          was_clean = λ now. now;
          content = λ now few same told. refl;
          left = λ now few same told. told;
        })
        (tells_of_kind
        ⟦<Folder as Keeper>⟧.comes ⟦<Folder as Keeper>⟧.content ⟦<Folder as Keeper>⟧.tells_left
        ⟦<Folder as Keeper>⟧.is_clean ⟦<Folder as Keeper>⟧.faults
        ⟦<Database as Keeper>⟧.comes ⟦<Database as Keeper>⟧.content ⟦<Database as Keeper>⟧.tells_left
        ⟦<Database as Keeper>⟧.is_clean ⟦<Database as Keeper>⟧.faults
        (λ k l met. same_tells None false true k.0.faults l.0.faults) (λ k l met. met.on)) a.kind b.kind came) };
}
