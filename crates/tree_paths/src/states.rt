//! The state of a target, and what changed between two.

ghost use Rattle.std.specs.Prelude.{◌≡◌, ◌≤◌, ◌+◌, IfOk};
ghost use Rattle.octets.specs.Causes.{HasCause};
ghost use Rattle.keeper_api.specs.Faults.{keeper_failed};
ghost use Rattle.keeper_api.specs.Undisturbed.{Undisturbed};
ghost use Rattle.tree_paths.specs.Readings.{Readings, Told};
ghost use Rattle.tree_paths.specs.States.{IfWhole, state_at, walk_of};
ghost use Rattle.tree_paths.specs.Listings.{walk_visits};

use crate::counts::{MOST_LEVELS, Walked, no_counts};
use crate::heads::Peeled;
use crate::peeled_targets::root_of;
use crate::tree_walk::walk_tree;
use git_object::ObjectId;
use keeper_api::{Keeper, KeeperFault};
use octets::{Items, Octets};
use std::alloc::Global;

/// A list of paths.
pub type Paths = Items<Octets>;

/// The state of a target.
#[derive(Clone, Copy, Debug, PartialEq, Eq)]
pub enum State {
    /// There is nothing: the target is `zeros`.
    Absent,
    /// The id of the root's tree, the number of paths, and how many trees are visited, each as often as it is.
    Whole {
        tree: ObjectId,
        paths: u32,
        dirs: u32,
    },
    /// The first object that is missing, damaged, of a wrong kind, malformed or past a limit.
    Broken {
        id: ObjectId,
    },
}

/// What changed from one target to another.
#[derive(Drop)]
pub enum Comparison {
    /// The first bad object of the first target that has one.
    Broken {
        id: ObjectId,
    },
    /// The ids of both root trees, `zeros` where there is none, and the paths whose mode or id differ, in byte order.
    Changed {
        from: ObjectId,
        to: ObjectId,
        paths: Paths,
    },
}

/// The state of a target. A tag is followed to its object, through at most 8 tags, to a commit, whose tree is walked in
/// pre-order. `Broken` names the first object that is missing, has another id or kind than it should, or is malformed;
/// the ninth tag; an empty tree below the root or a tree at depth 33; and the tree in which path number 262,145, a
/// path of more than 4,096 bytes, or the one that takes the paths together past 64 MiB stands. It makes at most 9
/// reads beside one for each tree of the walk, also where the walk is broken or does not end.
pub fn state_of<R: Keeper>(
    alloc: Global,
    keeper: &mut R,
    target: &ObjectId,
) -> Result<State, KeeperFault>
    ensures state { IfOk result (λ state. (readings : Readings) → Told (R.content keeper.new) readings
        → state ≡ state_at (walk_of readings target.now)) }
    ensures same { Undisturbed R.Keeper keeper.old keeper.new }
    ensures cause { HasCause keeper_failed (R.faults keeper.old) (R.faults keeper.new) result }
    ensures reads { IfOk result (λ state. IfWhole state (λ paths dirs. R.reads keeper.new ≤ R.reads keeper.old + 9
        + dirs)) }
    ensures visited { (readings : Readings) → Told (R.content keeper.new) readings
        → R.reads keeper.new ≤ R.reads keeper.old + 9 + walk_visits readings target.now }
{
    match root_of(alloc, keeper, target)? {
        Peeled::Nothing => Ok(State::Absent),
        Peeled::Bad(id) => Ok(State::Broken { id }),
        Peeled::At { commit: _, tree } => match walk_tree(
            alloc,
            keeper,
            &tree,
            MOST_LEVELS,
            0,
            no_counts(),
        )? {
            Walked::Broken(id) => Ok(State::Broken { id }),
            Walked::Counted(counts) => Ok(State::Whole {
                tree,
                paths: counts.paths,
                dirs: counts.dirs,
            }),
        },
    }
}
