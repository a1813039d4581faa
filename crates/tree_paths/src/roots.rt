//! The trees of two targets.

ghost use Rattle.std.specs.Prelude.{◌≡◌, ◌≤◌, ◌+◌, [], Some, IfOk};
ghost use Rattle.octets.specs.Causes.{HasCause};
ghost use Rattle.git_object.specs.Repository.{Repository};
ghost use Rattle.keeper_api.specs.Faults.{keeper_failed};
ghost use Rattle.keeper_api.specs.Undisturbed.{Undisturbed};
ghost use Rattle.tree_paths.specs.Known.{AreKnownIn};
ghost use Rattle.tree_paths.specs.Readings.{Readings, Told};
ghost use Rattle.tree_paths.specs.Pairings.{IfBoth, IsPaired, Sides};
ghost use Rattle.tree_paths.specs.Walks.{steps};
ghost use Rattle.tree_paths.specs.Roots.{no_pair_counts, root_steps};

use crate::counts::{MOST_LEVELS, Walked, no_counts};
use crate::known_trees::KnownTrees;
use crate::paired_counts::{PairCounts, Paired};
use crate::paired_walk::pair_trees;
use crate::path_walk::list_tree;
use crate::shared_tree::pass_tree;
use crate::sides::same_id;
use crate::states::Paths;
use git_object::ObjectId;
use keeper_api::{Keeper, KeeperFault};
use std::alloc::Global;

// The counts of two walks that begin.
fn no_pair_counts() -> PairCounts
    ensures { result ≡ no_pair_counts }
{
    PairCounts {
        from: no_counts(),
        to: no_counts(),
    }
}

// The tree of the first target alone.
fn list_from<R: Keeper>(
    alloc: Global,
    keeper: &mut R,
    tree: &ObjectId,
    paths: &mut Paths,
) -> Result<Paired, KeeperFault>
    ensures steps { IfOk result (λ w. (readings : Readings) → Told (R.content keeper.new) readings
        → IsPaired readings.trees (steps readings.trees 32 [] tree.now) [] no_pair_counts w) }
    ensures sides { IfOk result (λ w. IfBoth w (λ c. (readings : Readings) → Told (R.content keeper.new) readings
        → Sides (steps readings.trees 32 [] tree.now) [] paths.old paths.new (R.reads keeper.old) (R.reads keeper.new))) }
    ensures same { Undisturbed R.Keeper keeper.old keeper.new }
    ensures cause { HasCause keeper_failed (R.faults keeper.old) (R.faults keeper.new) result }
{
    match list_tree(alloc, keeper, tree, MOST_LEVELS, b"", no_counts(), paths)? {
        Walked::Broken(bad) => Ok(Paired::FromBroken(bad)),
        Walked::Counted(counts) => Ok(Paired::BothCounted(PairCounts {
            from: counts,
            to: no_counts(),
        })),
    }
}

// The tree of the second target alone.
fn list_to<R: Keeper>(
    alloc: Global,
    keeper: &mut R,
    tree: &ObjectId,
    paths: &mut Paths,
) -> Result<Paired, KeeperFault>
    ensures steps { IfOk result (λ w. (readings : Readings) → Told (R.content keeper.new) readings
        → IsPaired readings.trees [] (steps readings.trees 32 [] tree.now) no_pair_counts w) }
    ensures sides { IfOk result (λ w. IfBoth w (λ c. (readings : Readings) → Told (R.content keeper.new) readings
        → Sides [] (steps readings.trees 32 [] tree.now) paths.old paths.new (R.reads keeper.old) (R.reads keeper.new))) }
    ensures same { Undisturbed R.Keeper keeper.old keeper.new }
    ensures cause { HasCause keeper_failed (R.faults keeper.old) (R.faults keeper.new) result }
{
    match list_tree(alloc, keeper, tree, MOST_LEVELS, b"", no_counts(), paths)? {
        Walked::Broken(bad) => Ok(Paired::ToBroken(bad)),
        Walked::Counted(counts) => Ok(Paired::BothCounted(PairCounts {
            from: no_counts(),
            to: counts,
        })),
    }
}

// The trees of both targets.
fn pair_both<R: Keeper>(
    alloc: Global,
    keeper: &mut R,
    known: &KnownTrees,
    from: &ObjectId,
    to: &ObjectId,
    paths: &mut Paths,
) -> Result<Paired, KeeperFault>
    requires known { (r : Repository) → R.content keeper.old ≡ Some r → AreKnownIn r known.now }
    ensures steps { IfOk result (λ w. (readings : Readings) → Told (R.content keeper.new) readings
        → IsPaired readings.trees (steps readings.trees 32 [] from.now) (steps readings.trees 32 [] to.now)
        no_pair_counts w) }
    ensures sides { IfOk result (λ w. IfBoth w (λ c. (readings : Readings) → Told (R.content keeper.new) readings
        → Sides (steps readings.trees 32 [] from.now) (steps readings.trees 32 [] to.now) paths.old paths.new
        (R.reads keeper.old) (R.reads keeper.new))) }
    ensures same { Undisturbed R.Keeper keeper.old keeper.new }
    ensures cause { HasCause keeper_failed (R.faults keeper.old) (R.faults keeper.new) result }
{
    if same_id(from, to) {
        let paired = pass_tree(alloc, keeper, known, from, MOST_LEVELS, 0, no_pair_counts())?;
        return Ok(paired);
    }
    let paired = pair_trees(
        alloc,
        keeper,
        known,
        from,
        to,
        MOST_LEVELS,
        b"",
        no_pair_counts(),
        paths,
    )?;
    Ok(paired)
}

/// Walks the trees of two targets at once, None where there is nothing, and adds the changed paths at the end of the
/// list. After an answer other than counts a part of them may stand there.
pub fn pair_roots<R: Keeper>(
    alloc: Global,
    keeper: &mut R,
    known: &KnownTrees,
    from: &Option<ObjectId>,
    to: &Option<ObjectId>,
    paths: &mut Paths,
) -> Result<Paired, KeeperFault>
    requires known { (r : Repository) → R.content keeper.old ≡ Some r → AreKnownIn r known.now }
    ensures steps { IfOk result (λ w. (readings : Readings) → Told (R.content keeper.new) readings
        → IsPaired readings.trees (root_steps readings.trees from.now) (root_steps readings.trees to.now) no_pair_counts
        w) }
    ensures sides { IfOk result (λ w. IfBoth w (λ c. (readings : Readings) → Told (R.content keeper.new) readings
        → Sides (root_steps readings.trees from.now) (root_steps readings.trees to.now) paths.old paths.new
        (R.reads keeper.old) (R.reads keeper.new))) }
    ensures same { Undisturbed R.Keeper keeper.old keeper.new }
    ensures cause { HasCause keeper_failed (R.faults keeper.old) (R.faults keeper.new) result }
{
    match from {
        Some(first) => match to {
            Some(second) => {
                let paired = pair_both(alloc, keeper, known, first, second, paths)?;
                Ok(paired)
            }
            None => {
                let paired = list_from(alloc, keeper, first, paths)?;
                Ok(paired)
            }
        },
        None => match to {
            Some(second) => {
                let paired = list_to(alloc, keeper, second, paths)?;
                Ok(paired)
            }
            None => Ok(Paired::BothCounted(no_pair_counts())),
        },
    }
}
