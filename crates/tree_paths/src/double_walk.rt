//! The walk of one tree that stands at one place in two walks: it is read once and counted for both.

ghost use Rattle.std.specs.Prelude.{◌≡◌, ◌≤◌, ◌+◌, ◌-◌, ◌*◌, ◌<◌, ℕ, List, length, min, IfOk};
ghost use Rattle.octets.specs.Causes.{HasCause};
ghost use Rattle.keeper_api.specs.Faults.{keeper_failed};
ghost use Rattle.keeper_api.specs.Undisturbed.{Undisturbed};
ghost use Rattle.tree_paths.specs.Readings.{Readings, Told};
ghost use Rattle.tree_paths.specs.Walks.{entry_steps, is_dir, leaf, steps};
ghost use Rattle.tree_paths.specs.Pairings.{AreFew, IfBoth, IsPaired, both_leaves};

use crate::counts::{Walked, count_dir, count_path, is_dir, longer};
use crate::object_reads::open_tree;
use crate::paired_counts::{PairCounts, Paired};
use git_object::{ObjectId, TreeEntry};
use keeper_api::{Keeper, KeeperFault};
use std::alloc::Global;

/// One more path of so many bytes for both, in each one's tree.
pub fn count_both(from: &ObjectId, to: &ObjectId, counts: PairCounts, len: usize) -> Paired
    requires few_from { counts.from.paths ≤ 262144 }
    requires few_to { counts.to.paths ≤ 262144 }
    requires short { len ≤ 8192 }
    ensures { result ≡ both_leaves (leaf from.now len counts.from) (leaf to.now len counts.to) }
{
    match count_path(from, counts.from, len) {
        Walked::Broken(bad) => Paired::FromBroken(bad),
        Walked::Counted(first) => match count_path(to, counts.to, len) {
            Walked::Broken(bad) => Paired::ToBroken(bad),
            Walked::Counted(second) => Paired::BothCounted(PairCounts {
                from: first,
                to: second,
            }),
        },
    }
}

// Walks what an entry names, for both.
#[cycle(twice)]
fn twice_entry<R: Keeper>(
    alloc: Global,
    keeper: &mut R,
    holder: &ObjectId,
    entry: &TreeEntry,
    left: u32,
    len: usize,
    counts: PairCounts,
) -> Result<Paired, KeeperFault>
    requires levels { left ≤ 32 }
    requires level { 1 ≤ left }
    requires short { len ≤ 8192 }
    requires few_from { counts.from.paths ≤ 262144 }
    requires few_to { counts.to.paths ≤ 262144 }
    requires room_from { counts.from.dirs + left ≤ 32 * counts.from.paths + 33 }
    requires room_to { counts.to.dirs + left ≤ 32 * counts.to.paths + 33 }
    ensures steps { IfOk result (λ w. (readings : Readings) (front : List ℕ) → Told (R.content keeper.new) readings
        → len ≡ min (length front) 8192
        → IsPaired readings.trees (entry_steps (steps readings.trees (left - 1)) holder.now front entry.now
        (is_dir entry.now.mode)) (entry_steps (steps readings.trees (left - 1)) holder.now front entry.now
        (is_dir entry.now.mode)) counts w) }
    ensures few { IfOk result (λ w. IfBoth w (λ c. AreFew 0 c)) }
    ensures spent { IfOk result (λ w. IfBoth w (λ c. R.reads keeper.new + counts.from.dirs ≤ R.reads keeper.old
        + c.from.dirs)) }
    ensures same { Undisturbed R.Keeper keeper.old keeper.new }
    ensures cause { HasCause keeper_failed (R.faults keeper.old) (R.faults keeper.new) result }
{
    let long = longer(len, entry);
    if is_dir(entry.mode) {
        let walked = twice_tree(alloc, keeper, &entry.id, left - 1, long, counts)?;
        Ok(walked)
    } else {
        Ok(count_both(holder, holder, counts, long))
    }
}

/// Walks the tree at an id with so many levels left, at a place of so many bytes (of 8,192, where it has more), once
/// for both walks, after these counts.
#[cycle(twice)]
pub fn twice_tree<R: Keeper>(
    alloc: Global,
    keeper: &mut R,
    id: &ObjectId,
    left: u32,
    len: usize,
    start: PairCounts,
) -> Result<Paired, KeeperFault>
    requires levels { left ≤ 32 }
    requires short { len ≤ 8192 }
    requires few_from { start.from.paths ≤ 262144 }
    requires few_to { start.to.paths ≤ 262144 }
    requires room_from { start.from.dirs + left ≤ 32 * start.from.paths + 32 }
    requires room_to { start.to.dirs + left ≤ 32 * start.to.paths + 32 }
    requires root { len ≡ 0 → 32 ≤ left }
    ensures steps { IfOk result (λ w. (readings : Readings) (front : List ℕ) → Told (R.content keeper.new) readings
        → len ≡ min (length front) 8192
        → IsPaired readings.trees (steps readings.trees left front id.now) (steps readings.trees left front id.now)
        start w) }
    ensures few { IfOk result (λ w. IfBoth w (λ c. AreFew left c)) }
    ensures spent { IfOk result (λ w. IfBoth w (λ c. R.reads keeper.new + start.from.dirs ≤ R.reads keeper.old
        + c.from.dirs)) }
    ensures same { Undisturbed R.Keeper keeper.old keeper.new }
    ensures cause { HasCause keeper_failed (R.faults keeper.old) (R.faults keeper.new) result }
{
    let Some(entries) = open_tree(alloc, keeper, id, left, len == 0)? else {
        return Ok(Paired::FromBroken(*id));
    };
    let mut counts = PairCounts {
        from: count_dir(start.from),
        to: count_dir(start.to),
    };
    let mut rest = entries.as_slice();
    'entries: while let Some((entry, more)) = rest.split_first() {
        match twice_entry(alloc, keeper, id, entry, left, len, counts)? {
            Paired::FromBroken(bad) => return Ok(Paired::FromBroken(bad)),
            Paired::ToBroken(bad) => return Ok(Paired::ToBroken(bad)),
            Paired::BothCounted(next) => counts = next,
        }
        rest = more;
    }
    Ok(Paired::BothCounted(counts))
}
