//! A tree that two walks meet at one place, and that may be known.

ghost use Rattle.std.specs.Prelude.{◌≡◌, ◌≤◌, ◌+◌, ◌*◌, ℕ, List, Some, length, min, IfOk};
ghost use Rattle.octets.specs.Causes.{HasCause};
ghost use Rattle.git_object.specs.Repository.{Repository};
ghost use Rattle.keeper_api.specs.Faults.{keeper_failed};
ghost use Rattle.keeper_api.specs.Undisturbed.{Undisturbed};
ghost use Rattle.tree_paths.specs.Known.{AreKnownIn};
ghost use Rattle.tree_paths.specs.Pairings.{AreFew, IfBoth, IsPaired};
ghost use Rattle.tree_paths.specs.Readings.{Readings, Told};
ghost use Rattle.tree_paths.specs.Walks.{steps};

use crate::double_walk::twice_tree;
use crate::known_trees::KnownTrees;
use crate::paired_counts::{PairCounts, Paired};
use git_object::ObjectId;
use keeper_api::{Keeper, KeeperFault};
use std::alloc::Global;

/// Counts the tree at an id for both walks, with so many levels left, at a place of so many bytes (of 8,192, where it
/// has more), after these counts. A tree that is known is not read.
pub fn pass_tree<R: Keeper>(
    alloc: Global,
    keeper: &mut R,
    known: &KnownTrees,
    id: &ObjectId,
    left: u32,
    len: usize,
    start: PairCounts,
) -> Result<Paired, KeeperFault>
    requires known { (r : Repository) → R.content keeper.old ≡ Some r → AreKnownIn r known.now }
    requires levels { left ≤ 32 }
    requires short { len ≤ 8192 }
    requires few_from { start.from.paths ≤ 262144 }
    requires few_to { start.to.paths ≤ 262144 }
    requires room_from { start.from.dirs + left ≤ 32 * start.from.paths + 32 }
    requires room_to { start.to.dirs + left ≤ 32 * start.to.paths + 32 }
    requires root { len ≡ 0 → 32 ≤ left }
    ensures steps { IfOk result (λ w. (readings : Readings) (front : List ℕ) → Told (R.content keeper.new) readings
        → len ≡ min (length front) 8192
        → IsPaired readings.trees (steps readings.trees left front id.now) (steps readings.trees left front id.now)
        start w) }
    ensures few { IfOk result (λ w. IfBoth w (λ c. AreFew left c)) }
    ensures spent { IfOk result (λ w. IfBoth w (λ c. R.reads keeper.new + start.from.dirs ≤ R.reads keeper.old
        + c.from.dirs)) }
    ensures same { Undisturbed R.Keeper keeper.old keeper.new }
    ensures cause { HasCause keeper_failed (R.faults keeper.old) (R.faults keeper.new) result }
{
    match known.counted(id, left, len, start) {
        Some(counts) => Ok(Paired::BothCounted(counts)),
        None => {
            let paired = twice_tree(alloc, keeper, id, left, len, start)?;
            Ok(paired)
        }
    }
}
