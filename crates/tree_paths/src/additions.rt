//! Learning what the walks of trees add.

ghost use Rattle.std.specs.Prelude.{◌≡◌, ◌≤◌, ◌+◌, ◌-◌, ℕ, List, Some, length, min, IfOk, IfSome};
ghost use Rattle.std.specs.BTreeMap.{btree_map_len};
ghost use Rattle.octets.specs.Causes.{HasCause};
ghost use Rattle.git_object.specs.Repository.{Repository};
ghost use Rattle.keeper_api.specs.Faults.{keeper_failed};
ghost use Rattle.keeper_api.specs.Undisturbed.{Undisturbed};
ghost use Rattle.tree_paths.specs.Adding.{Adds};
ghost use Rattle.tree_paths.specs.Known.{AreFewKnown, AreKnownIn, HasRoom, IsAt, StayKnown};
ghost use Rattle.tree_paths.specs.Listings.{visits, walk_visits};
ghost use Rattle.tree_paths.specs.Readings.{Readings, Told};
ghost use Rattle.tree_paths.specs.States.{root_of};
ghost use Rattle.tree_paths.specs.Walks.{entry_steps, is_dir, steps};
ghost use Rattle.tree_paths.specs.declared.heads.Peeled.TheVariants as peeled;

use crate::counts::{
    Counts, MOST_LEVELS, add_counts, count_dir, is_dir, longer, no_counts, one_path,
};
use crate::heads::Peeled;
use crate::known_trees::KnownTrees;
use crate::object_reads::open_tree;
use crate::peeled_targets::root_of;
use crate::read_trees::ReadTree;
use git_object::{ObjectId, TreeEntry};
use keeper_api::{Keeper, KeeperFault};
use std::alloc::Global;

// What an entry adds, if it is no bad one.
#[cycle(learning)]
fn learn_entry<R: Keeper>(
    alloc: Global,
    keeper: &mut R,
    known: &mut KnownTrees,
    entry: &TreeEntry,
    left: u32,
    len: usize,
) -> Result<Option<Counts>, KeeperFault>
    requires known { (r : Repository) → R.content keeper.old ≡ Some r → AreKnownIn r known.old }
    requires levels { left ≤ 32 }
    requires level { 1 ≤ left }
    requires short { len ≤ 8192 }
    ensures adds { IfOk result (λ found. IfSome found (λ adds. (readings : Readings) (holder front : List ℕ)
        → Told (R.content keeper.new) readings → len ≡ min (length front) 8192
        → Adds readings.trees (entry_steps (steps readings.trees (left - 1)) holder front entry.now
        (is_dir entry.now.mode)) adds)) }
    ensures visited { (readings : Readings) (holder front : List ℕ) → Told (R.content keeper.new) readings
        → R.reads keeper.new ≤ R.reads keeper.old
        + visits (entry_steps (steps readings.trees (left - 1)) holder front entry.now (is_dir entry.now.mode)) }
    ensures known { (r : Repository) → R.content keeper.new ≡ Some r → AreKnownIn r known.new }
    ensures few { AreFewKnown known.old → AreFewKnown known.new }
    ensures room { HasRoom known.old → HasRoom known.new }
    ensures stay { StayKnown known.old known.new }
    ensures same { Undisturbed R.Keeper keeper.old keeper.new }
    ensures cause { HasCause keeper_failed (R.faults keeper.old) (R.faults keeper.new) result }
{
    let long = longer(len, entry);
    if is_dir(entry.mode) {
        let adds = learn_tree(alloc, keeper, known, &entry.id, left - 1, long)?;
        Ok(adds)
    } else {
        Ok(one_path(long))
    }
}

/// What the walk of the tree at an id adds, with so many levels left, at a place of so many bytes (of 8,192, where it
/// has more), if it has no bad step; that is kept, and what the trees below it add. A tree that is known is not read.
#[cycle(learning)]
fn learn_tree<R: Keeper>(
    alloc: Global,
    keeper: &mut R,
    known: &mut KnownTrees,
    id: &ObjectId,
    left: u32,
    len: usize,
) -> Result<Option<Counts>, KeeperFault>
    requires known { (r : Repository) → R.content keeper.old ≡ Some r → AreKnownIn r known.old }
    requires levels { left ≤ 32 }
    requires short { len ≤ 8192 }
    ensures adds { IfOk result (λ found. IfSome found (λ adds. (readings : Readings) (front : List ℕ)
        → Told (R.content keeper.new) readings → len ≡ min (length front) 8192
        → Adds readings.trees (steps readings.trees left front id.now) adds)) }
    ensures visited { (readings : Readings) (front : List ℕ) → Told (R.content keeper.new) readings
        → R.reads keeper.new ≤ R.reads keeper.old + visits (steps readings.trees left front id.now) }
    ensures known { (r : Repository) → R.content keeper.new ≡ Some r → AreKnownIn r known.new }
    ensures few { AreFewKnown known.old → AreFewKnown known.new }
    ensures room { HasRoom known.old → HasRoom known.new }
    ensures stay { StayKnown known.old known.new }
    ensures spared { IsAt known.old id.now left len → R.reads keeper.new ≡ R.reads keeper.old }
    ensures same { Undisturbed R.Keeper keeper.old keeper.new }
    ensures cause { HasCause keeper_failed (R.faults keeper.old) (R.faults keeper.new) result }
{
    if let Some(adds) = known.adds_at(id, left, len) {
        return Ok(Some(adds));
    }
    let Some(entries) = open_tree(alloc, keeper, id, left, len == 0)? else {
        return Ok(None);
    };
    let mut adds = count_dir(no_counts());
    let mut rest = entries.as_slice();
    'entries: while let Some((entry, more)) = rest.split_first() {
        let Some(next) = learn_entry(alloc, keeper, known, entry, left, len)? else {
            return Ok(None);
        };
        let Some(sum) = add_counts(adds, next) else {
            return Ok(None);
        };
        adds = sum;
        rest = more;
    }
    known.keep(id, left, len, adds, ReadTree::new(entries));
    Ok(Some(adds))
}

/// Learns what the tree of a target and those below it add, for comparisons of the target with others. Trees that are
/// known already are not read, and of the others no more than the target's walk visits, beside at most 9 reads. Before
/// that all is let go that was known, where that is much, and never while at most 4,096 trees are known.
pub fn learn<R: Keeper>(
    alloc: Global,
    keeper: &mut R,
    known: &mut KnownTrees,
    target: &ObjectId,
) -> Result<(), KeeperFault>
    requires known { (r : Repository) → R.content keeper.old ≡ Some r → AreKnownIn r known.old }
    ensures known { (r : Repository) → R.content keeper.new ≡ Some r → AreKnownIn r known.new }
    ensures few { AreFewKnown known.old → AreFewKnown known.new }
    ensures room { HasRoom known.old → HasRoom known.new }
    ensures stay { btree_map_len known.old.rows ≤ known.old.most → StayKnown known.old known.new }
    ensures spared { (readings : Readings) (commit tree : List ℕ) → Told (R.content keeper.new) readings
        → root_of readings.heads target.now ≡ peeled.At commit tree
        → btree_map_len known.old.rows ≤ known.old.most → IsAt known.old tree 32 0
        → R.reads keeper.new ≤ R.reads keeper.old + 9 }
    ensures visited { (readings : Readings) → Told (R.content keeper.new) readings
        → R.reads keeper.new ≤ R.reads keeper.old + 9 + walk_visits readings target.now }
    ensures same { Undisturbed R.Keeper keeper.old keeper.new }
    ensures cause { HasCause keeper_failed (R.faults keeper.old) (R.faults keeper.new) result }
{
    known.make_room();
    match root_of(alloc, keeper, target)? {
        Peeled::At { commit: _, tree } => {
            match learn_tree(alloc, keeper, known, &tree, MOST_LEVELS, 0)? {
                Some(adds) => known.set_room(adds.dirs),
                None => {}
            }
            Ok(())
        }
        Peeled::Nothing | Peeled::Bad(_) => Ok(()),
    }
}
