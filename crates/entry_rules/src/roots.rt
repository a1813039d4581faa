//! The trees of two targets.

ghost use Rattle.std.specs.Prelude.{◌≡◌, ◌≤◌, ◌+◌, Some, None, false, IfOk, IfSome, IsTrue};
ghost use Rattle.octets.specs.Causes.{HasCause};
ghost use Rattle.git_object.specs.Repository.{Repository};
ghost use Rattle.keeper_api.specs.Faults.{keeper_failed};
ghost use Rattle.keeper_api.specs.Undisturbed.{Undisturbed};
ghost use Rattle.tree_paths.specs.Repositories.{readings_of};
ghost use Rattle.tree_paths.specs.Roots.{root_ended};
ghost use Rattle.tree_paths.specs.States.{is_sound, walk_of};
ghost use Rattle.entry_rules.specs.Learning.{AreRoots, IsPair};
ghost use Rattle.entry_rules.specs.RealRules.{both_sound};

use git_object::ObjectId;
use keeper_api::{Keeper, KeeperFault};
use std::alloc::Global;
use text_reader::same_bytes;
use tree_paths::{Peeled, root_of};

/// The trees of two targets, None where there is nothing.
#[derive(Clone, Copy, Debug)]
pub struct Roots {
    pub from: Option<ObjectId>,
    pub to: Option<ObjectId>,
}

// The tree of a target, None within where there is nothing; None where an object on the way to it is bad.
fn root_at<R: Keeper>(
    alloc: Global,
    keeper: &mut R,
    target: &ObjectId,
) -> Result<Option<Option<ObjectId>>, KeeperFault>
    ensures root { IfOk result (λ found. IfSome found (λ root. (r : Repository) → R.content keeper.new ≡ Some r
        → walk_of (readings_of r) target.now ≡ root_ended (readings_of r).trees root)) }
    ensures bad { IfOk result (λ found. found ≡ None → (r : Repository) → R.content keeper.new ≡ Some r
        → is_sound (walk_of (readings_of r) target.now) ≡ false) }
    ensures same { Undisturbed R.Keeper keeper.old keeper.new }
    ensures cause { HasCause keeper_failed (R.faults keeper.old) (R.faults keeper.new) result }
    ensures reads { R.reads keeper.new ≤ R.reads keeper.old + 9 }
{
    match root_of(alloc, keeper, target)? {
        Peeled::Bad(_) => Ok(None),
        Peeled::Nothing => Ok(Some(None)),
        Peeled::At { commit: _, tree } => Ok(Some(Some(tree))),
    }
}

/// The trees of two targets; None where an object on the way to one of them is bad. It makes at most eighteen reads.
pub fn roots_of<R: Keeper>(
    alloc: Global,
    keeper: &mut R,
    from: &ObjectId,
    to: &ObjectId,
) -> Result<Option<Roots>, KeeperFault>
    ensures roots { IfOk result (λ found. IfSome found (λ roots. (r : Repository) → R.content keeper.new ≡ Some r
        → AreRoots (readings_of r) from.now to.now roots)) }
    ensures bad { IfOk result (λ found. found ≡ None → (r : Repository) → R.content keeper.new ≡ Some r
        → both_sound (readings_of r) from.now to.now ≡ false) }
    ensures same { Undisturbed R.Keeper keeper.old keeper.new }
    ensures cause { HasCause keeper_failed (R.faults keeper.old) (R.faults keeper.new) result }
    ensures reads { R.reads keeper.new ≤ R.reads keeper.old + 18 }
{
    let Some(first) = root_at(alloc, keeper, from)? else {
        return Ok(None);
    };
    let Some(second) = root_at(alloc, keeper, to)? else {
        return Ok(None);
    };
    Ok(Some(Roots {
        from: first,
        to: second,
    }))
}

fn same_root(left: &Option<ObjectId>, right: &Option<ObjectId>) -> bool
    ensures { IsTrue result → left.now ≡ right.now }
{
    match left {
        Some(left) => match right {
            Some(right) => same_bytes(left.as_bytes(), right.as_bytes()),
            None => false,
        },
        None => right.is_none(),
    }
}

/// Whether a pair of trees is another, in either order: what changed between them is the same.
pub fn is_pair(row: &Roots, roots: &Roots) -> bool
    ensures { IsTrue result → IsPair row.now roots.now }
{
    if same_root(&row.from, &roots.from) {
        return same_root(&row.to, &roots.to);
    }
    if same_root(&row.from, &roots.to) {
        return same_root(&row.to, &roots.from);
    }
    false
}
