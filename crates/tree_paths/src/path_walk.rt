//! The walk of one tree that lists its paths.

ghost use Rattle.std.specs.Prelude.{◌≡◌, ◌≤◌, ◌+◌, ◌-◌, ◌*◌, ◌<◌, ◌++◌, length, IfOk};
ghost use Rattle.octets.specs.Causes.{HasCause};
ghost use Rattle.keeper_api.specs.Faults.{keeper_failed};
ghost use Rattle.keeper_api.specs.Undisturbed.{Undisturbed};
ghost use Rattle.tree_paths.specs.Readings.{Readings, Told};
ghost use Rattle.tree_paths.specs.Listings.{leaves};
ghost use Rattle.tree_paths.specs.Walks.{Grown, IfCounted, entry_steps, is_dir, judge, place_of, steps};

use crate::counts::{Counts, Walked, count_dir, count_path, cut, is_dir, longer};
use crate::object_reads::open_tree;
use crate::states::Paths;
use git_object::{Memory, ObjectId, Octets, TreeEntry};
use keeper_api::{Keeper, KeeperFault};
use std::alloc::Global;

/// The place of what an entry names, below the place of its tree.
pub fn place_at(alloc: Global, front: &[u8], entry: &TreeEntry) -> Result<Octets, Memory>
    ensures { IfOk result (λ place. place ≡ place_of front.now entry.now) }
{
    let mut place = Octets::from_slice(alloc, front)?;
    place.append(entry.name.as_slice())?;
    place.append(entry.mode.key_end())?;
    Ok(place)
}

/// Lists what an entry of a tree at a place names, after these counts, and adds its paths at the end of the list.
#[cycle(listing)]
pub fn list_entry<R: Keeper>(
    alloc: Global,
    keeper: &mut R,
    holder: &ObjectId,
    entry: &TreeEntry,
    left: u32,
    front: &[u8],
    counts: Counts,
    paths: &mut Paths,
) -> Result<Walked, KeeperFault>
    requires levels { left ≤ 32 }
    requires level { 1 ≤ left }
    requires few { counts.paths ≤ 262144 }
    requires room { counts.dirs + left ≤ 32 * counts.paths + 33 }
    ensures steps { IfOk result (λ w. (readings : Readings) → Told (R.content keeper.new) readings
        → w ≡ judge readings.trees (entry_steps (steps readings.trees (left - 1)) holder.now front.now entry.now
        (is_dir entry.now.mode)) counts) }
    ensures listed { IfOk result (λ w. IfCounted w (λ c. (readings : Readings) → Told (R.content keeper.new) readings
        → paths.new ≡ paths.old ++ leaves (entry_steps (steps readings.trees (left - 1)) holder.now front.now entry.now
        (is_dir entry.now.mode)))) }
    ensures grown { IfOk result (λ w. IfCounted w (λ c. Grown 0 counts (R.reads keeper.old) c (R.reads keeper.new))) }
    ensures same { Undisturbed R.Keeper keeper.old keeper.new }
    ensures cause { HasCause keeper_failed (R.faults keeper.old) (R.faults keeper.new) result }
{
    if is_dir(entry.mode) {
        let place = place_at(alloc, front, entry)?;
        let walked = list_tree(
            alloc,
            keeper,
            &entry.id,
            left - 1,
            place.as_slice(),
            counts,
            paths,
        )?;
        Ok(walked)
    } else {
        match count_path(holder, counts, longer(cut(front.len()), entry)) {
            Walked::Broken(bad) => Ok(Walked::Broken(bad)),
            Walked::Counted(next) => {
                paths.push(place_at(alloc, front, entry)?)?;
                Ok(Walked::Counted(next))
            }
        }
    }
}

/// Walks the tree at an id with so many levels left, at a place, after these counts, and adds its paths at the end of
/// the list. After an answer other than counts a part of them may stand there.
#[cycle(listing)]
pub fn list_tree<R: Keeper>(
    alloc: Global,
    keeper: &mut R,
    id: &ObjectId,
    left: u32,
    front: &[u8],
    start: Counts,
    paths: &mut Paths,
) -> Result<Walked, KeeperFault>
    requires levels { left ≤ 32 }
    requires few { start.paths ≤ 262144 }
    requires room { start.dirs + left ≤ 32 * start.paths + 32 }
    requires root { length front.now ≡ 0 → 32 ≤ left }
    ensures steps { IfOk result (λ w. (readings : Readings) → Told (R.content keeper.new) readings
        → w ≡ judge readings.trees (steps readings.trees left front.now id.now) start) }
    ensures listed { IfOk result (λ w. IfCounted w (λ c. (readings : Readings) → Told (R.content keeper.new) readings
        → paths.new ≡ paths.old ++ leaves (steps readings.trees left front.now id.now))) }
    ensures grown { IfOk result (λ w. IfCounted w (λ c. Grown left start (R.reads keeper.old) c (R.reads keeper.new))) }
    ensures same { Undisturbed R.Keeper keeper.old keeper.new }
    ensures cause { HasCause keeper_failed (R.faults keeper.old) (R.faults keeper.new) result }
{
    let Some(entries) = open_tree(alloc, keeper, id, left, front.is_empty())? else {
        return Ok(Walked::Broken(*id));
    };
    let mut counts = count_dir(start);
    let mut rest = entries.as_slice();
    'entries: while let Some((entry, more)) = rest.split_first() {
        match list_entry(alloc, keeper, id, entry, left, front, counts, paths)? {
            Walked::Broken(bad) => return Ok(Walked::Broken(bad)),
            Walked::Counted(next) => counts = next,
        }
        rest = more;
    }
    Ok(Walked::Counted(counts))
}
