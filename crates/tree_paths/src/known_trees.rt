//! What is known of the trees of a repository.

ghost use Rattle.std.specs.Prelude.{◌≡◌, ◌≤◌, ◌+◌, ◌*◌, ℕ, List, None, Some, if◌then◌else◌, length, min, IfSome, OnErr};
ghost use Rattle.std.specs.Prelude.{OnOk};
ghost use Rattle.std.specs.Option.{option_copied};
ghost use Rattle.std.specs.BTreeMap as tree;
ghost use Rattle.std.specs.BTreeMap.{btree_map_len};
ghost use Rattle.std.specs.Ordering.{is_eq};
ghost use Rattle.octets.specs.BytesMap.{by_bytes};
ghost use Rattle.git_object.specs.Repository.{Repository};
ghost use Rattle.tree_paths.specs.Adding.{Adds, IsSum};
ghost use Rattle.tree_paths.specs.Known.{AreFewKnown, AreKnown, AreKnownIn, HasRoom, IsAt, StayKnown};
ghost use Rattle.tree_paths.specs.Pairings.{AreFew, IsPaired};
ghost use Rattle.tree_paths.specs.Readings.{Trees};
ghost use Rattle.tree_paths.specs.Walks.{steps};
ghost use Rattle.tree_paths.specs.declared.paired_counts.Paired.TheVariants as paired;

use crate::counts::{Counts, add_counts};
use crate::paired_counts::PairCounts;
use crate::read_trees::ReadTree;
use git_object::{Memory, ObjectId};
use std::alloc::Global;
use std::collections::BTreeMap;

/// How many trees more than four times those of the state that was learned last may be known before all are let go.
const SPARE_TREES: usize = 4096;

/// The most trees of which something is kept.
const MOST_TREES: usize = 65_536;

/// The most entries of trees that are kept.
const MOST_ENTRIES: usize = 131_072;

/// What the walk of a tree adds, with so many levels left, at a place of so many bytes (of 8,192, where it has more),
/// and the entries of the tree, where there was room for them.
#[derive(Drop)]
pub(crate) struct KnownTree {
    pub(crate) left: u32,
    pub(crate) len: usize,
    pub(crate) adds: Counts,
    pub(crate) entries: Option<ReadTree>,
}

/// What the walk of each of some trees of a repository adds to the counts of a state, of at most 65,536 trees, and the
/// entries of some of them. It is good for the repository from which it was learned, and for each larger one.
#[derive(Drop)]
pub struct KnownTrees {
    pub(crate) rows: BTreeMap<ObjectId, KnownTree>,
    most: usize,
    entries: usize,
}

// A tree whose entries are kept, where so many are kept already; None where there is no room for them.
fn within_room(kept: usize, tree: ReadTree) -> Option<ReadTree>
    ensures { IfSome result (λ entries. entries ≡ tree) }
{
    if kept > MOST_ENTRIES || tree.as_slice().len() > MOST_ENTRIES - kept {
        return None;
    }
    Some(tree)
}

// The counts with what a tree below the root adds, if the limits have room for it.
fn within(counts: Counts, adds: Counts) -> Option<Counts>
    ensures sum { IfSome result (λ sum. IsSum counts adds sum) }
    ensures few { IfSome result (λ sum. sum.dirs ≤ 32 * sum.paths) }
{
    let sum = add_counts(counts, adds)?;
    if sum.dirs > 32 * sum.paths {
        return None;
    }
    Some(sum)
}

// Keeps a row under an id. Where there is no memory for it, nothing changes.
fn add_row(
    rows: &mut BTreeMap<ObjectId, KnownTree>,
    id: &ObjectId,
    row: KnownTree,
) -> Result<(), Memory>
    ensures put { OnOk result ((q : List ℕ)
        → tree.get by_bytes rows.new q ≡ (if is_eq (by_bytes id.now q) then Some row else tree.get by_bytes rows.old q)) }
    ensures one { OnOk result (btree_map_len rows.new ≤ btree_map_len rows.old + 1) }
    ensures same { OnErr result (rows.new.entries ≡ rows.old.entries) }
{
    let _had = rows.insert(*id, row)?;
    Ok(())
}

impl KnownTrees {
    /// Nothing is known. It takes no memory.
    pub fn new(alloc: Global) -> KnownTrees
        ensures known { (r : Repository) → AreKnownIn r result }
        ensures few { AreFewKnown result }
        ensures room { HasRoom result }
    {
        KnownTrees {
            rows: BTreeMap::new(alloc),
            most: SPARE_TREES,
            entries: 0,
        }
    }

    /// What is known of a tree with so many levels left at a place of so many bytes.
    pub(crate) fn adds_at(&self, id: &ObjectId, left: u32, len: usize) -> Option<Counts>
        ensures adds { IfSome result (λ adds. (trees : Trees) (front : List ℕ) → AreKnown trees self.now
            → len ≡ min (length front) 8192 → Adds trees (steps trees left front id.now) adds) }
        ensures none { result ≡ None → IsAt self.now id.now left len → ⊥ }
    {
        let row = self.rows.get(id)?;
        if row.left != left || row.len != len {
            return None;
        }
        Some(row.adds)
    }

    /// The entries of a tree, where they are kept.
    pub(crate) fn tree_at(&self, id: &ObjectId) -> Option<&ReadTree>
        ensures { IfSome (option_copied result) (λ entries. (trees : Trees) → AreKnown trees self.now
            → trees id.now ≡ Some entries) }
    {
        let row = self.rows.get(id)?;
        row.entries.as_ref()
    }

    /// The counts of two walks after a tree that both meet at one place, where it is known and the limits of both have
    /// room for what it adds.
    pub(crate) fn counted(
        &self,
        id: &ObjectId,
        left: u32,
        len: usize,
        start: PairCounts,
    ) -> Option<PairCounts>
        ensures counted { IfSome result (λ c. (trees : Trees) (front : List ℕ) → AreKnown trees self.now
            → len ≡ min (length front) 8192
            → IsPaired trees (steps trees left front id.now) (steps trees left front id.now) start
            (paired.BothCounted c)) }
        ensures few { IfSome result (λ c. AreFew left c) }
        ensures more { IfSome result (λ c. start.from.dirs ≤ c.from.dirs) }
    {
        let adds = self.adds_at(id, left, len)?;
        let from = within(start.from, adds)?;
        let to = within(start.to, adds)?;
        Some(PairCounts { from, to })
    }

    /// Keeps what a tree adds, unless too many are kept already or there is no memory for it, and its entries, where
    /// there is room for them too.
    pub(crate) fn keep(
        &mut self,
        id: &ObjectId,
        left: u32,
        len: usize,
        adds: Counts,
        tree: ReadTree,
    )
        ensures known { (trees : Trees) → AreKnown trees self.old
            → ((front : List ℕ) → len ≡ min (length front) 8192 → Adds trees (steps trees left front id.now) adds)
            → trees id.now ≡ Some tree → AreKnown trees self.new }
        ensures few { AreFewKnown self.old → AreFewKnown self.new }
        ensures room { HasRoom self.old → HasRoom self.new }
        ensures stay { StayKnown self.old self.new }
    {
        if self.rows.len() < MOST_TREES {
            let count = tree.as_slice().len();
            let entries = within_room(self.entries, tree);
            self.entries = self.entries.saturating_add(count);
            let row = KnownTree {
                left,
                len,
                adds,
                entries,
            };
            match add_row(&mut self.rows, id, row) {
                Ok(()) => {}
                Err(Memory) => {}
            }
        }
    }

    /// Lets all go where it is more than what is of use.
    pub(crate) fn make_room(&mut self)
        ensures known { (trees : Trees) → AreKnown trees self.old → AreKnown trees self.new }
        ensures few { AreFewKnown self.old → AreFewKnown self.new }
        ensures room { HasRoom self.old → HasRoom self.new }
        ensures same { btree_map_len self.old.rows ≤ self.old.most → self.new ≡ self.old }
    {
        if self.rows.len() > self.most {
            self.rows.clear();
            self.entries = 0;
        }
    }

    /// Makes room for the trees of a state that has so many. Where they are more than are ever kept, nothing is let go.
    pub(crate) fn set_room(&mut self, dirs: u32)
        ensures known { (trees : Trees) → AreKnown trees self.old → AreKnown trees self.new }
        ensures few { AreFewKnown self.old → AreFewKnown self.new }
        ensures room { HasRoom self.new }
        ensures stay { StayKnown self.old self.new }
    {
        let dirs = dirs as usize;
        self.most = if dirs > MOST_TREES {
            MOST_TREES
        } else {
            (4 * dirs + SPARE_TREES).min(MOST_TREES - 1)
        };
    }
}
