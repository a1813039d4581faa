//! The comparison of two targets.

ghost use Rattle.std.specs.Prelude.{◌≡◌, ◌≤◌, ◌+◌, Some, IfOk};
ghost use Rattle.octets.specs.Causes.{HasCause};
ghost use Rattle.git_object.specs.Repository.{Repository};
ghost use Rattle.keeper_api.specs.Faults.{keeper_failed};
ghost use Rattle.keeper_api.specs.Undisturbed.{Undisturbed};
ghost use Rattle.tree_paths.specs.Known.{AreKnownIn};
ghost use Rattle.tree_paths.specs.Readings.{Readings, Told};
ghost use Rattle.tree_paths.specs.States.{Ended, Faulty, walk_of};
ghost use Rattle.tree_paths.specs.Changes.{IfChanged, IsComparison, shared_reads};
ghost use Rattle.tree_paths.specs.Roots.{root_ended, root_id};

use crate::counts::{MOST_LEVELS, Walked, no_counts};
use crate::heads::Peeled;
use crate::known_trees::KnownTrees;
use crate::paired_counts::Paired;
use crate::peeled_targets::root_of;
use crate::roots::pair_roots;
use crate::states::{Comparison, Paths};
use crate::tree_walk::walk_tree;
use git_object::ObjectId;
use keeper_api::{Keeper, KeeperFault};
use std::alloc::Global;

/// The id of a tree, or `zeros` where there is none.
pub fn root_id(root: &Option<ObjectId>) -> ObjectId
    ensures { result ≡ root_id root.now }
{
    match root {
        Some(tree) => *tree,
        None => ObjectId::zeros(),
    }
}

// What is answered where the second target is bad at an object: the first bad object of the first, if it has one.
fn first_or<R: Keeper>(
    alloc: Global,
    keeper: &mut R,
    from: &Option<ObjectId>,
    bad: ObjectId,
) -> Result<Comparison, KeeperFault>
    ensures compared { IfOk result (λ c. (readings : Readings) (t : Ended) → Told (R.content keeper.new) readings
        → t ≡ Faulty bad → IsComparison (root_ended readings.trees from.now) t c) }
    ensures broken { IfOk result (λ c. IfChanged c ⊥) }
    ensures same { Undisturbed R.Keeper keeper.old keeper.new }
    ensures cause { HasCause keeper_failed (R.faults keeper.old) (R.faults keeper.new) result }
{
    match from {
        Some(tree) => match walk_tree(alloc, keeper, tree, MOST_LEVELS, 0, no_counts())? {
            Walked::Broken(first) => Ok(Comparison::Broken { id: first }),
            Walked::Counted(_) => Ok(Comparison::Broken { id: bad }),
        },
        None => Ok(Comparison::Broken { id: bad }),
    }
}

/// What changed from the tree of one target to that of another, None where there is nothing, as `compare_known` says it
/// of the targets. Where neither is broken it makes one read for each tree that is visited for `to`, and for each that is
/// visited for `from` and not at the same place with the same id for `to`.
pub fn compare_roots<R: Keeper>(
    alloc: Global,
    keeper: &mut R,
    known: &KnownTrees,
    from: &Option<ObjectId>,
    to: &Option<ObjectId>,
) -> Result<Comparison, KeeperFault>
    requires known { (r : Repository) → R.content keeper.old ≡ Some r → AreKnownIn r known.now }
    ensures compared { IfOk result (λ c. (readings : Readings) → Told (R.content keeper.new) readings
        → IsComparison (root_ended readings.trees from.now) (root_ended readings.trees to.now) c) }
    ensures reads { IfOk result (λ c. (readings : Readings) → Told (R.content keeper.new) readings
        → IfChanged c (R.reads keeper.new ≤ R.reads keeper.old + shared_reads (root_ended readings.trees from.now)
        (root_ended readings.trees to.now))) }
    ensures same { Undisturbed R.Keeper keeper.old keeper.new }
    ensures cause { HasCause keeper_failed (R.faults keeper.old) (R.faults keeper.new) result }
{
    let mut paths = Paths::new(alloc);
    let paired = pair_roots(alloc, keeper, known, from, to, &mut paths)?;
    match paired {
        Paired::FromBroken(id) => Ok(Comparison::Broken { id }),
        Paired::ToBroken(id) => {
            let comparison = first_or(alloc, keeper, from, id)?;
            Ok(comparison)
        }
        Paired::BothCounted(_) => Ok(Comparison::Changed {
            from: root_id(from),
            to: root_id(to),
            paths,
        }),
    }
}

// Compares what was found for the first target with the second.
fn compare_with<R: Keeper>(
    alloc: Global,
    keeper: &mut R,
    known: &KnownTrees,
    from: &Option<ObjectId>,
    to: &ObjectId,
) -> Result<Comparison, KeeperFault>
    requires known { (r : Repository) → R.content keeper.old ≡ Some r → AreKnownIn r known.now }
    ensures compared { IfOk result (λ c. (readings : Readings) → Told (R.content keeper.new) readings
        → IsComparison (root_ended readings.trees from.now) (walk_of readings to.now) c) }
    ensures reads { IfOk result (λ c. (readings : Readings) → Told (R.content keeper.new) readings
        → IfChanged c (R.reads keeper.new ≤ R.reads keeper.old + 9 + shared_reads (root_ended readings.trees from.now)
        (walk_of readings to.now))) }
    ensures same { Undisturbed R.Keeper keeper.old keeper.new }
    ensures cause { HasCause keeper_failed (R.faults keeper.old) (R.faults keeper.new) result }
{
    match root_of(alloc, keeper, to)? {
        Peeled::Bad(id) => {
            let comparison = first_or(alloc, keeper, from, id)?;
            Ok(comparison)
        }
        Peeled::Nothing => {
            let comparison = compare_roots(alloc, keeper, known, from, &None)?;
            Ok(comparison)
        }
        Peeled::At { commit: _, tree } => {
            let comparison = compare_roots(alloc, keeper, known, from, &Some(tree))?;
            Ok(comparison)
        }
    }
}

/// What changed from one target to another, as `compare` says it, where something is known of the trees of the
/// repository: a known tree that stands at the same place in both is not read.
pub fn compare_known<R: Keeper>(
    alloc: Global,
    keeper: &mut R,
    known: &KnownTrees,
    from: &ObjectId,
    to: &ObjectId,
) -> Result<Comparison, KeeperFault>
    requires known { (r : Repository) → R.content keeper.old ≡ Some r → AreKnownIn r known.now }
    ensures compared { IfOk result (λ c. (readings : Readings) → Told (R.content keeper.new) readings
        → IsComparison (walk_of readings from.now) (walk_of readings to.now) c) }
    ensures reads { IfOk result (λ c. (readings : Readings) → Told (R.content keeper.new) readings
        → IfChanged c (R.reads keeper.new ≤ R.reads keeper.old + 18 + shared_reads (walk_of readings from.now)
        (walk_of readings to.now))) }
    ensures same { Undisturbed R.Keeper keeper.old keeper.new }
    ensures cause { HasCause keeper_failed (R.faults keeper.old) (R.faults keeper.new) result }
{
    match root_of(alloc, keeper, from)? {
        Peeled::Bad(id) => Ok(Comparison::Broken { id }),
        Peeled::Nothing => {
            let comparison = compare_with(alloc, keeper, known, &None, to)?;
            Ok(comparison)
        }
        Peeled::At { commit: _, tree } => {
            let comparison = compare_with(alloc, keeper, known, &Some(tree), to)?;
            Ok(comparison)
        }
    }
}

/// What changed from one target to another: the paths whose mode or id differ, those that only one has among them, in
/// byte order. Where a target is broken, the first bad object of the first that is. Both trees are walked side by side:
/// a tree that stands at the same place with the same id in both is read once, and none of its paths are listed. Where
/// neither is broken it makes at most 18 reads, and one for each tree that is visited for `to`, and for each that is
/// visited for `from` and not at the same place with the same id for `to`.
pub fn compare<R: Keeper>(
    alloc: Global,
    keeper: &mut R,
    from: &ObjectId,
    to: &ObjectId,
) -> Result<Comparison, KeeperFault>
    ensures compared { IfOk result (λ c. (readings : Readings) → Told (R.content keeper.new) readings
        → IsComparison (walk_of readings from.now) (walk_of readings to.now) c) }
    ensures reads { IfOk result (λ c. (readings : Readings) → Told (R.content keeper.new) readings
        → IfChanged c (R.reads keeper.new ≤ R.reads keeper.old + 18 + shared_reads (walk_of readings from.now)
        (walk_of readings to.now))) }
    ensures same { Undisturbed R.Keeper keeper.old keeper.new }
    ensures cause { HasCause keeper_failed (R.faults keeper.old) (R.faults keeper.new) result }
{
    let known = KnownTrees::new(alloc);
    compare_known(alloc, keeper, &known, from, to)
}
