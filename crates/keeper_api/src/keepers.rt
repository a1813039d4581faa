//! The trait of a store of Git objects and references.

ghost use Rattle.std.specs.Prelude.{◌≡◌, ℕ, Bool, true, Option, Some, IfOk, IsErrOf};
ghost use Rattle.std.specs.Option.{option_map, option_copied};
ghost use Rattle.std.specs.FinMap.{get};
ghost use Rattle.octets.specs.BytesMap.{entry_after};
ghost use Rattle.octets.specs.Causes.{HasCause, one_more};
ghost use Rattle.keeper_api.specs.Faults.{keeper_failed};
ghost use Rattle.octets.specs.Content.{Told};
ghost use Rattle.git_object.specs.Repository.{Repository};
ghost use Rattle.keeper_api.specs.Changes.{ref_value};
ghost use Rattle.keeper_api.specs.Keepers.{AsBefore, Commits, TellsOn, Leaves};

use crate::{Change, KeeperFault, RefValue};
use git_object::{Object, ObjectId, RefName};
use std::alloc::Global;

/// A store that holds a repository. A call that the store refuses answers `Failed` and counts one fault, and no
/// other call counts any; want of memory is `Memory`. No call but `commit` changes what is held.
pub trait Keeper {
    /// The repository that is held, where the keeper tells it. Telling ends only where a fault was counted or the
    /// medium is not clean, and never begins.
    ghost content: { Self → Option Repository };

    /// Whether the keeper tells what a stop at this moment may leave. Telling ends only where a fault was counted or
    /// the medium is not clean, and never begins.
    ghost tells_left: { Self → Bool };

    /// The repositories that a stop at this moment may leave, where the keeper tells it.
    ghost left: { Self → Repository → Type 0 };

    /// Whether the medium that the keeper keeps to has given back so far what was written to it. It may end at any
    /// call, and never begins; no call can see it.
    ghost is_clean: { Self → Bool };

    /// How many faults were counted.
    ghost faults: { Self → ℕ };

    /// How often an object was read.
    ghost reads: { Self → ℕ };

    /// Whether the second comes of the first by calls that make no commit.
    ghost comes: { Self → Self → Type 0 };

    /// The object that is kept at an id, as it is kept. It is the one call that raises the count of reads.
    fn read_object(&mut self, alloc: Global, id: &ObjectId) -> Result<Option<Object>, KeeperFault>
        ensures answer { IfOk result (λ found. (r : Repository) → content self.new ≡ Some r
            → found ≡ get r.objects id.now) }
        ensures same { AsBefore (content self.old) (content self.new) (tells_left self.old) (tells_left self.new)
            (left self.old) (left self.new)
            (λ first. comes first self.old) (λ first. comes first self.new) }
        ensures cause { HasCause keeper_failed (faults self.old) (faults self.new) result }
        ensures reads { reads self.new ≡ one_more (reads self.old) };

    /// The id that a reference name stands at.
    fn read_ref(&mut self, alloc: Global, name: &RefName) -> Result<Option<ObjectId>, KeeperFault>
        ensures answer { IfOk result (λ found. (r : Repository) → content self.new ≡ Some r
            → found ≡ get r.refs name.now) }
        ensures same { AsBefore (content self.old) (content self.new) (tells_left self.old) (tells_left self.new)
            (left self.old) (left self.new)
            (λ first. comes first self.old) (λ first. comes first self.new) }
        ensures cause { HasCause keeper_failed (faults self.old) (faults self.new) result }
        ensures reads { reads self.new ≡ reads self.old };

    /// The least id of a kept object that is greater than the one given, or the least of all.
    fn next_object_after(
        &mut self,
        alloc: Global,
        after: Option<&ObjectId>,
    ) -> Result<Option<ObjectId>, KeeperFault>
        ensures answer { IfOk result (λ found. (r : Repository) → content self.new ≡ Some r
            → found ≡ option_map (λ e. e.0) (entry_after r.objects (option_copied after.entry))) }
        ensures same { AsBefore (content self.old) (content self.new) (tells_left self.old) (tells_left self.new)
            (left self.old) (left self.new)
            (λ first. comes first self.old) (λ first. comes first self.new) }
        ensures cause { HasCause keeper_failed (faults self.old) (faults self.new) result }
        ensures reads { reads self.new ≡ reads self.old };

    /// The least reference name that is greater than the one given, or the least of all, with its id.
    fn next_ref_after(
        &mut self,
        alloc: Global,
        after: Option<&RefName>,
    ) -> Result<Option<RefValue>, KeeperFault>
        ensures answer { IfOk result (λ found. (r : Repository) → content self.new ≡ Some r
            → found ≡ option_map ref_value (entry_after r.refs (option_copied after.entry))) }
        ensures same { AsBefore (content self.old) (content self.new) (tells_left self.old) (tells_left self.new)
            (left self.old) (left self.new)
            (λ first. comes first self.old) (λ first. comes first self.new) }
        ensures cause { HasCause keeper_failed (faults self.old) (faults self.new) result }
        ensures reads { reads self.new ≡ reads self.old };

    /// Keeps each object of the change under its own id and then makes the reference changes in order, all
    /// together. After `Failed` the old or the new repository is held, after `Memory` the old one.
    fn commit(&mut self, alloc: Global, change: &Change) -> Result<(), KeeperFault>
        ensures content { Told (Commits change.now result) (content self.old) (content self.new) }
        ensures on { TellsOn (content self.old) (content self.new) (tells_left self.old) (tells_left self.new)
            (is_clean self.old) (is_clean self.new) (faults self.old) (faults self.new) }
        ensures unmade { IsErrOf result KeeperFault.Memory → (first : Self) → comes first self.old
            → comes first self.new }
        ensures left { Leaves change.now result (content self.old) (tells_left self.old) (tells_left self.new)
            (left self.old) (left self.new) }
        ensures cause { HasCause keeper_failed (faults self.old) (faults self.new) result }
        ensures reads { reads self.new ≡ reads self.old };

    /// The count of faults. It takes no memory.
    fn faults(&self) -> u64
        ensures { result ≡ faults self.now };

    /// Where the keeper tells what a stop may leave, what is held may be left.
    ghost held_is_left: { (keeper : Self) (r : Repository) → tells_left keeper ≡ true → content keeper ≡ Some r → left keeper r };

    /// A keeper comes of itself.
    ghost comes_self: { (keeper : Self) → comes keeper keeper };

    /// What comes of a keeper tells on, where its medium is clean and no fault was counted since.
    ghost comes_tells: { (first second : Self) → comes first second
        → TellsOn (content first) (content second) (tells_left first) (tells_left second) (is_clean first)
        (is_clean second) (faults first) (faults second) };
}
