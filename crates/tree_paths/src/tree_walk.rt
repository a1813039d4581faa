//! The walk of one tree, which counts.

ghost use Rattle.std.specs.Prelude.{◌≡◌, ◌≤◌, ◌+◌, ◌-◌, ◌*◌, ◌<◌, ℕ, List, length, min, IfOk};
ghost use Rattle.octets.specs.Causes.{HasCause};
ghost use Rattle.keeper_api.specs.Faults.{keeper_failed};
ghost use Rattle.keeper_api.specs.Undisturbed.{Undisturbed};
ghost use Rattle.tree_paths.specs.Listings.{visits};
ghost use Rattle.tree_paths.specs.Readings.{Readings, Told};
ghost use Rattle.tree_paths.specs.Walks.{Grown, IfCounted, entry_steps, is_dir, judge, steps};

use crate::counts::{Counts, Walked, count_dir, count_path, is_dir, longer};
use crate::object_reads::open_tree;
use git_object::{ObjectId, TreeEntry};
use keeper_api::{Keeper, KeeperFault};
use std::alloc::Global;

// Walks what an entry names.
#[cycle(walking)]
fn walk_entry<R: Keeper>(
    alloc: Global,
    keeper: &mut R,
    holder: &ObjectId,
    entry: &TreeEntry,
    left: u32,
    len: usize,
    counts: Counts,
) -> Result<Walked, KeeperFault>
    requires levels { left ≤ 32 }
    requires level { 1 ≤ left }
    requires short { len ≤ 8192 }
    requires few { counts.paths ≤ 262144 }
    requires room { counts.dirs + left ≤ 32 * counts.paths + 33 }
    ensures steps { IfOk result (λ w. (readings : Readings) (front : List ℕ) → Told (R.content keeper.new) readings
        → len ≡ min (length front) 8192
        → w ≡ judge readings.trees (entry_steps (steps readings.trees (left - 1)) holder.now front entry.now
        (is_dir entry.now.mode)) counts) }
    ensures grown { IfOk result (λ w. IfCounted w (λ c. Grown 0 counts (R.reads keeper.old) c (R.reads keeper.new))) }
    ensures visited { (readings : Readings) (front : List ℕ) → Told (R.content keeper.new) readings
        → R.reads keeper.new ≤ R.reads keeper.old
        + visits (entry_steps (steps readings.trees (left - 1)) holder.now front entry.now (is_dir entry.now.mode)) }
    ensures same { Undisturbed R.Keeper keeper.old keeper.new }
    ensures cause { HasCause keeper_failed (R.faults keeper.old) (R.faults keeper.new) result }
{
    let long = longer(len, entry);
    if is_dir(entry.mode) {
        let walked = walk_tree(alloc, keeper, &entry.id, left - 1, long, counts)?;
        Ok(walked)
    } else {
        Ok(count_path(holder, counts, long))
    }
}

/// Walks the tree at an id with so many levels left, at a place of so many bytes (of 8,192, where it has more), after
/// these counts. One tree at a time is held for each level.
#[cycle(walking)]
pub fn walk_tree<R: Keeper>(
    alloc: Global,
    keeper: &mut R,
    id: &ObjectId,
    left: u32,
    len: usize,
    start: Counts,
) -> Result<Walked, KeeperFault>
    requires levels { left ≤ 32 }
    requires short { len ≤ 8192 }
    requires few { start.paths ≤ 262144 }
    requires room { start.dirs + left ≤ 32 * start.paths + 32 }
    requires root { len ≡ 0 → 32 ≤ left }
    ensures steps { IfOk result (λ w. (readings : Readings) (front : List ℕ) → Told (R.content keeper.new) readings
        → len ≡ min (length front) 8192
        → w ≡ judge readings.trees (steps readings.trees left front id.now) start) }
    ensures grown { IfOk result (λ w. IfCounted w (λ c. Grown left start (R.reads keeper.old) c (R.reads keeper.new))) }
    ensures visited { (readings : Readings) (front : List ℕ) → Told (R.content keeper.new) readings
        → R.reads keeper.new ≤ R.reads keeper.old + visits (steps readings.trees left front id.now) }
    ensures same { Undisturbed R.Keeper keeper.old keeper.new }
    ensures cause { HasCause keeper_failed (R.faults keeper.old) (R.faults keeper.new) result }
{
    let Some(entries) = open_tree(alloc, keeper, id, left, len == 0)? else {
        return Ok(Walked::Broken(*id));
    };
    let mut counts = count_dir(start);
    let mut rest = entries.as_slice();
    'entries: while let Some((entry, more)) = rest.split_first() {
        match walk_entry(alloc, keeper, id, entry, left, len, counts)? {
            Walked::Broken(bad) => return Ok(Walked::Broken(bad)),
            Walked::Counted(next) => counts = next,
        }
        rest = more;
    }
    Ok(Walked::Counted(counts))
}
