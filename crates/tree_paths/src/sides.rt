//! What one place of two trees adds where only one of them has it, and where both have a path there.

ghost use Rattle.std.specs.Prelude.{◌≡◌, ◌≤◌, ◌+◌, ◌-◌, ◌*◌, ◌++◌, [], ℕ, List, false, IfOk};
ghost use Rattle.std.specs.Str.{bytes_eq};
ghost use Rattle.octets.specs.Causes.{HasCause};
ghost use Rattle.keeper_api.specs.Faults.{keeper_failed};
ghost use Rattle.keeper_api.specs.Undisturbed.{Undisturbed};
ghost use Rattle.tree_paths.specs.Readings.{Readings, Told, Trees};
ghost use Rattle.tree_paths.specs.Walks.{IsFew, Step, entry_steps, is_dir, steps};
ghost use Rattle.tree_paths.specs.Pairings.{IfBoth, IsPaired, Sides, changes, merge, mode_number, same_value};
ghost use Rattle.tree_paths.specs.Places.{AreAtOne, OnePath};

use crate::counts::{Walked, cut, longer};
use crate::double_walk::count_both;
use crate::paired_counts::{PairCounts, Paired};
use crate::path_walk::{list_entry, place_at};
use crate::states::Paths;
use git_object::{Memory, Mode, ObjectId, TreeEntry};
use keeper_api::{Keeper, KeeperFault};
use std::alloc::Global;

/// Whether the ids are equal.
pub fn same_id(left: &ObjectId, right: &ObjectId) -> bool
    ensures { result ≡ bytes_eq left.now right.now }
{
    left.as_bytes() == right.as_bytes()
}

// The number of a mode, which no other has.
fn mode_number(mode: Mode) -> u32
    ensures { result ≡ mode_number mode }
{
    match mode {
        Mode::Dir => 0,
        Mode::File => 1,
        Mode::Exec => 2,
        Mode::Link => 3,
        Mode::Module => 4,
    }
}

// Whether the entries have one mode and one id.
fn is_same(left: &TreeEntry, right: &TreeEntry) -> bool
    ensures { result ≡ same_value (left.now.mode, left.now.id) (right.now.mode, right.now.id) }
{
    mode_number(left.mode) == mode_number(right.mode) && same_id(&left.id, &right.id)
}

/// Lists what an entry of the first tree names, which has no place in the second.
pub fn take_from<R: Keeper>(
    alloc: Global,
    keeper: &mut R,
    holder: &ObjectId,
    entry: &TreeEntry,
    left: u32,
    front: &[u8],
    counts: PairCounts,
    paths: &mut Paths,
) -> Result<Paired, KeeperFault>
    requires levels { left ≤ 32 }
    requires level { 1 ≤ left }
    requires few { counts.from.paths ≤ 262144 }
    requires room { counts.from.dirs + left ≤ 32 * counts.from.paths + 33 }
    ensures steps { IfOk result (λ w. (readings : Readings) → Told (R.content keeper.new) readings
        → IsPaired readings.trees (entry_steps (steps readings.trees (left - 1)) holder.now front.now entry.now
        (is_dir entry.now.mode)) [] counts w) }
    ensures sides { IfOk result (λ w. IfBoth w (λ c. (readings : Readings) → Told (R.content keeper.new) readings
        → Sides (entry_steps (steps readings.trees (left - 1)) holder.now front.now entry.now (is_dir entry.now.mode))
        [] paths.old paths.new (R.reads keeper.old) (R.reads keeper.new))) }
    ensures few { IfOk result (λ w. IfBoth w (λ c. IsFew 0 c.from)) }
    ensures other { IfOk result (λ w. IfBoth w (λ c. c.to ≡ counts.to)) }
    ensures same { Undisturbed R.Keeper keeper.old keeper.new }
    ensures cause { HasCause keeper_failed (R.faults keeper.old) (R.faults keeper.new) result }
{
    match list_entry(
        alloc,
        keeper,
        holder,
        entry,
        left,
        front,
        counts.from,
        paths,
    )? {
        Walked::Broken(bad) => Ok(Paired::FromBroken(bad)),
        Walked::Counted(next) => Ok(Paired::BothCounted(PairCounts {
            from: next,
            to: counts.to,
        })),
    }
}

/// Lists what an entry of the second tree names, which has no place in the first.
pub fn take_to<R: Keeper>(
    alloc: Global,
    keeper: &mut R,
    holder: &ObjectId,
    entry: &TreeEntry,
    left: u32,
    front: &[u8],
    counts: PairCounts,
    paths: &mut Paths,
) -> Result<Paired, KeeperFault>
    requires levels { left ≤ 32 }
    requires level { 1 ≤ left }
    requires few { counts.to.paths ≤ 262144 }
    requires room { counts.to.dirs + left ≤ 32 * counts.to.paths + 33 }
    ensures steps { IfOk result (λ w. (readings : Readings) → Told (R.content keeper.new) readings
        → IsPaired readings.trees [] (entry_steps (steps readings.trees (left - 1)) holder.now front.now entry.now
        (is_dir entry.now.mode)) counts w) }
    ensures sides { IfOk result (λ w. IfBoth w (λ c. (readings : Readings) → Told (R.content keeper.new) readings
        → Sides [] (entry_steps (steps readings.trees (left - 1)) holder.now front.now entry.now
        (is_dir entry.now.mode)) paths.old paths.new (R.reads keeper.old) (R.reads keeper.new))) }
    ensures few { IfOk result (λ w. IfBoth w (λ c. IsFew 0 c.to)) }
    ensures other { IfOk result (λ w. IfBoth w (λ c. c.from ≡ counts.from)) }
    ensures same { Undisturbed R.Keeper keeper.old keeper.new }
    ensures cause { HasCause keeper_failed (R.faults keeper.old) (R.faults keeper.new) result }
{
    match list_entry(alloc, keeper, holder, entry, left, front, counts.to, paths)? {
        Walked::Broken(bad) => Ok(Paired::ToBroken(bad)),
        Walked::Counted(next) => Ok(Paired::BothCounted(PairCounts {
            from: counts.from,
            to: next,
        })),
    }
}

/// Counts a path of both trees, and adds it where its mode or its id differs.
pub fn pair_leaves(
    alloc: Global,
    from: &ObjectId,
    to: &ObjectId,
    first: &TreeEntry,
    second: &TreeEntry,
    front: &[u8],
    counts: PairCounts,
    paths: &mut Paths,
) -> Result<Paired, Memory>
    requires plain { is_dir first.now.mode ≡ false }
    requires one { AreAtOne first.now second.now }
    requires few_from { counts.from.paths ≤ 262144 }
    requires few_to { counts.to.paths ≤ 262144 }
    ensures steps { IfOk result (λ w. (trees : Trees) (into : List ℕ → List ℕ → List Step)
        → IsPaired trees (entry_steps into from.now front.now first.now (is_dir first.now.mode))
        (entry_steps into to.now front.now second.now (is_dir second.now.mode)) counts w) }
    ensures changed { IfOk result (λ w. IfBoth w (λ c. (into : List ℕ → List ℕ → List Step)
        → paths.new ≡ paths.old ++ changes
        (merge (entry_steps into from.now front.now first.now (is_dir first.now.mode))
        (entry_steps into to.now front.now second.now (is_dir second.now.mode))))) }
    ensures counted { IfOk result (λ w. IfBoth w (λ c. OnePath counts.from c.from × OnePath counts.to c.to)) }
{
    match count_both(from, to, counts, longer(cut(front.len()), first)) {
        Paired::FromBroken(bad) => Ok(Paired::FromBroken(bad)),
        Paired::ToBroken(bad) => Ok(Paired::ToBroken(bad)),
        Paired::BothCounted(next) => {
            if is_same(first, second) {
                return Ok(Paired::BothCounted(next));
            }
            paths.push(place_at(alloc, front, first)?)?;
            Ok(Paired::BothCounted(next))
        }
    }
}
