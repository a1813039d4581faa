//! Two trees walked side by side.

ghost use Rattle.std.specs.Prelude.{◌≡◌, ◌≤◌, ◌+◌, ◌-◌, ◌*◌, Some, length, false, IfOk};
ghost use Rattle.std.specs.Option.{option_copied};
ghost use Rattle.std.specs.Str.{bytes_eq};
ghost use Rattle.octets.specs.Causes.{HasCause};
ghost use Rattle.git_object.specs.Repository.{Repository};
ghost use Rattle.keeper_api.specs.Faults.{keeper_failed};
ghost use Rattle.keeper_api.specs.Undisturbed.{Undisturbed};
ghost use Rattle.tree_paths.specs.Known.{AreKnownIn};
ghost use Rattle.tree_paths.specs.Readings.{Readings, Told};
ghost use Rattle.tree_paths.specs.Walks.{entry_steps, is_dir, steps};
ghost use Rattle.tree_paths.specs.Pairings.{AreFew, IfBoth, IsPaired, Sides};
ghost use Rattle.tree_paths.specs.Places.{AreAtOne, AreTogether, Takes, piece};

use crate::counts::{count_dir, cut, is_dir, longer};
use crate::known_trees::KnownTrees;
use crate::opened_trees::open_known;
use crate::paired_counts::{PairCounts, Paired};
use crate::path_walk::place_at;
use crate::places::next_place;
use crate::shared_tree::pass_tree;
use crate::sides::{pair_leaves, same_id, take_from, take_to};
use crate::states::Paths;
use git_object::{ObjectId, TreeEntry};
use keeper_api::{Keeper, KeeperFault};
use std::alloc::Global;

// Two entries of one place.
#[cycle(pairing)]
fn pair_entries<R: Keeper>(
    alloc: Global,
    keeper: &mut R,
    known: &KnownTrees,
    from: &ObjectId,
    to: &ObjectId,
    first: &TreeEntry,
    second: &TreeEntry,
    left: u32,
    front: &[u8],
    counts: PairCounts,
    paths: &mut Paths,
) -> Result<Paired, KeeperFault>
    requires known { (r : Repository) → R.content keeper.old ≡ Some r → AreKnownIn r known.now }
    requires one { AreAtOne first.now second.now }
    requires levels { left ≤ 32 }
    requires level { 1 ≤ left }
    requires few_from { counts.from.paths ≤ 262144 }
    requires few_to { counts.to.paths ≤ 262144 }
    requires room_from { counts.from.dirs + left ≤ 32 * counts.from.paths + 33 }
    requires room_to { counts.to.dirs + left ≤ 32 * counts.to.paths + 33 }
    ensures steps { IfOk result (λ w. (readings : Readings) → Told (R.content keeper.new) readings
        → IsPaired readings.trees (entry_steps (steps readings.trees (left - 1)) from.now front.now first.now
        (is_dir first.now.mode))
        (entry_steps (steps readings.trees (left - 1)) to.now front.now second.now (is_dir second.now.mode)) counts w) }
    ensures sides { IfOk result (λ w. IfBoth w (λ c. (readings : Readings) → Told (R.content keeper.new) readings
        → Sides (entry_steps (steps readings.trees (left - 1)) from.now front.now first.now (is_dir first.now.mode))
        (entry_steps (steps readings.trees (left - 1)) to.now front.now second.now (is_dir second.now.mode))
        paths.old paths.new (R.reads keeper.old) (R.reads keeper.new))) }
    ensures few { IfOk result (λ w. IfBoth w (AreFew 0)) }
    ensures same { Undisturbed R.Keeper keeper.old keeper.new }
    ensures cause { HasCause keeper_failed (R.faults keeper.old) (R.faults keeper.new) result }
{
    if !is_dir(first.mode) {
        let paired = pair_leaves(alloc, from, to, first, second, front, counts, paths)?;
        return Ok(paired);
    }
    if same_id(&first.id, &second.id) {
        let long = longer(cut(front.len()), first);
        let paired = pass_tree(alloc, keeper, known, &first.id, left - 1, long, counts)?;
        return Ok(paired);
    }
    let place = place_at(alloc, front, first)?;
    let paired = pair_trees(
        alloc,
        keeper,
        known,
        &first.id,
        &second.id,
        left - 1,
        place.as_slice(),
        counts,
        paths,
    )?;
    Ok(paired)
}

// The entries of one place: of both trees or of one.
#[cycle(pairing)]
fn pair_place<R: Keeper>(
    alloc: Global,
    keeper: &mut R,
    known: &KnownTrees,
    from: &ObjectId,
    to: &ObjectId,
    first: Option<&TreeEntry>,
    second: Option<&TreeEntry>,
    left: u32,
    front: &[u8],
    counts: PairCounts,
    paths: &mut Paths,
) -> Result<Paired, KeeperFault>
    requires known { (r : Repository) → R.content keeper.old ≡ Some r → AreKnownIn r known.now }
    requires together { AreTogether (option_copied first) (option_copied second) }
    requires levels { left ≤ 32 }
    requires level { 1 ≤ left }
    requires few_from { counts.from.paths ≤ 262144 }
    requires few_to { counts.to.paths ≤ 262144 }
    requires room_from { counts.from.dirs + left ≤ 32 * counts.from.paths + 33 }
    requires room_to { counts.to.dirs + left ≤ 32 * counts.to.paths + 33 }
    ensures steps { IfOk result (λ w. (readings : Readings) → Told (R.content keeper.new) readings
        → IsPaired readings.trees (piece (steps readings.trees (left - 1)) from.now front.now
        (option_copied first.entry))
        (piece (steps readings.trees (left - 1)) to.now front.now (option_copied second.entry)) counts w) }
    ensures sides { IfOk result (λ w. IfBoth w (λ c. (readings : Readings) → Told (R.content keeper.new) readings
        → Sides (piece (steps readings.trees (left - 1)) from.now front.now (option_copied first.entry))
        (piece (steps readings.trees (left - 1)) to.now front.now (option_copied second.entry))
        paths.old paths.new (R.reads keeper.old) (R.reads keeper.new))) }
    ensures takes { IfOk result (λ w. IfBoth w (λ c. Takes (option_copied first.entry) counts.from c.from
        × Takes (option_copied second.entry) counts.to c.to)) }
    ensures same { Undisturbed R.Keeper keeper.old keeper.new }
    ensures cause { HasCause keeper_failed (R.faults keeper.old) (R.faults keeper.new) result }
{
    match first {
        Some(first) => match second {
            Some(second) => {
                let paired = pair_entries(
                    alloc, keeper, known, from, to, first, second, left, front, counts, paths,
                )?;
                Ok(paired)
            }
            None => {
                let paired = take_from(alloc, keeper, from, first, left, front, counts, paths)?;
                Ok(paired)
            }
        },
        None => match second {
            Some(second) => {
                let paired = take_to(alloc, keeper, to, second, left, front, counts, paths)?;
                Ok(paired)
            }
            None => Ok(Paired::BothCounted(counts)),
        },
    }
}

/// Walks two trees side by side, whose ids differ, with so many levels left, at one place, after these counts, and adds
/// the changed paths at the end of the list. Each tree is read once, and one that both have at one place is read once
/// for both. After an answer other than counts a part of the paths may stand in the list.
#[cycle(pairing)]
pub fn pair_trees<R: Keeper>(
    alloc: Global,
    keeper: &mut R,
    known: &KnownTrees,
    from: &ObjectId,
    to: &ObjectId,
    left: u32,
    front: &[u8],
    start: PairCounts,
    paths: &mut Paths,
) -> Result<Paired, KeeperFault>
    requires known { (r : Repository) → R.content keeper.old ≡ Some r → AreKnownIn r known.now }
    requires other { bytes_eq from.now to.now ≡ false }
    requires levels { left ≤ 32 }
    requires few_from { start.from.paths ≤ 262144 }
    requires few_to { start.to.paths ≤ 262144 }
    requires room_from { start.from.dirs + left ≤ 32 * start.from.paths + 32 }
    requires room_to { start.to.dirs + left ≤ 32 * start.to.paths + 32 }
    requires root { length front.now ≡ 0 → 32 ≤ left }
    ensures steps { IfOk result (λ w. (readings : Readings) → Told (R.content keeper.new) readings
        → IsPaired readings.trees (steps readings.trees left front.now from.now)
        (steps readings.trees left front.now to.now) start w) }
    ensures sides { IfOk result (λ w. IfBoth w (λ c. (readings : Readings) → Told (R.content keeper.new) readings
        → Sides (steps readings.trees left front.now from.now) (steps readings.trees left front.now to.now) paths.old
        paths.new (R.reads keeper.old) (R.reads keeper.new))) }
    ensures few { IfOk result (λ w. IfBoth w (AreFew left)) }
    ensures same { Undisturbed R.Keeper keeper.old keeper.new }
    ensures cause { HasCause keeper_failed (R.faults keeper.old) (R.faults keeper.new) result }
{
    let Some(first) = open_known(alloc, keeper, known, from, left, front.is_empty())? else {
        return Ok(Paired::FromBroken(*from));
    };
    let Some(second) = open_known(alloc, keeper, known, to, left, front.is_empty())? else {
        return Ok(Paired::ToBroken(*to));
    };
    let mut counts = PairCounts {
        from: count_dir(start.from),
        to: count_dir(start.to),
    };
    let mut rest_from = first.as_slice();
    let mut rest_to = second.as_slice();
    'places: while let Some(next) = next_place(rest_from, rest_to) {
        match pair_place(
            alloc, keeper, known, from, to, next.from, next.to, left, front, counts, paths,
        )? {
            Paired::FromBroken(bad) => return Ok(Paired::FromBroken(bad)),
            Paired::ToBroken(bad) => return Ok(Paired::ToBroken(bad)),
            Paired::BothCounted(next) => counts = next,
        }
        rest_from = next.rest_from;
        rest_to = next.rest_to;
    }
    Ok(Paired::BothCounted(counts))
}
