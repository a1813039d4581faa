//! What is learned of a repository while entries are judged, and the store that learns.

ghost use Rattle.std.specs.Prelude.{◌≡◌, ◌≤◌, ◌+◌, Some};
ghost use Rattle.octets.specs.Causes.{HasCause};
ghost use Rattle.git_object.specs.Repository.{Repository};
ghost use Rattle.keeper_api.specs.Faults.{keeper_failed};
ghost use Rattle.keeper_api.specs.Undisturbed.{Undisturbed};
ghost use Rattle.tree_paths.specs.Listings.{walk_visits};
ghost use Rattle.tree_paths.specs.Readings.{Readings, Told};
ghost use Rattle.tree_paths.specs.Repositories.{readings_of};
ghost use Rattle.entry_rules.specs.Learning.{AreKnownIn, IsLesson};

use crate::known_changes::{KnownChanges, Lesson};
use git_object::ObjectId;
use keeper_api::{Keeper, KeeperFault};
use std::alloc::Global;
use tree_paths::{KnownTrees, learn};

/// What was learned of a repository: its trees, and changes between them. It is good for the repository from which it was
/// learned, and for each larger one.
#[derive(Drop)]
pub struct Learned {
    pub(crate) trees: KnownTrees,
    pub(crate) changes: KnownChanges,
}

/// A store, lent, with what the entry teaches that is judged in it. It owns nothing, so that who lent both sees what was
/// done with them.
pub struct LessonStore<'s, R: Keeper> {
    pub keeper: &'s mut R,
    pub lesson: &'s mut Lesson,
}

impl Learned {
    /// Nothing is known. It takes no memory.
    pub fn new(alloc: Global) -> Learned
        ensures { (r : Repository) → AreKnownIn r result }
    {
        Learned {
            trees: KnownTrees::new(alloc),
            changes: KnownChanges::new(alloc),
        }
    }

    /// Learns the trees of a target, as `tree_paths::learn` does.
    pub fn learn<R: Keeper>(
        &mut self,
        alloc: Global,
        keeper: &mut R,
        target: &ObjectId,
    ) -> Result<(), KeeperFault>
        requires known { (r : Repository) → R.content keeper.old ≡ Some r → AreKnownIn r self.old }
        ensures known { (r : Repository) → R.content keeper.new ≡ Some r → AreKnownIn r self.new }
        ensures same { Undisturbed R.Keeper keeper.old keeper.new }
        ensures cause { HasCause keeper_failed (R.faults keeper.old) (R.faults keeper.new) result }
        ensures visited { (readings : Readings) → Told (R.content keeper.new) readings
            → R.reads keeper.new ≤ R.reads keeper.old + 9 + walk_visits readings target.now }
    {
        learn(alloc, keeper, &mut self.trees, target)
    }

    /// Keeps what an entry taught, unless memory is wanting.
    pub fn take(&mut self, alloc: Global, lesson: Lesson)
        ensures { (r : Repository) → AreKnownIn r self.old → IsLesson (readings_of r).trees lesson
            → AreKnownIn r self.new }
    {
        self.changes.take(alloc, lesson);
    }
}
