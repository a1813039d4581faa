//! The paths that a change changed.

ghost use Rattle.std.specs.Prelude.{◌≡◌, IfOk, Some};
ghost use Rattle.octets.specs.Causes.{HasCause};
ghost use Rattle.git_object.specs.Repository.{Repository};
ghost use Rattle.keeper_api.specs.Faults.{keeper_failed};
ghost use Rattle.keeper_api.specs.Undisturbed.{Undisturbed};
ghost use Rattle.tree_paths.specs.Changes.{IsComparison};
ghost use Rattle.tree_paths.specs.Repositories.{readings_of};
ghost use Rattle.tree_paths.specs.States.{walk_of};
ghost use Rattle.global_rules.specs.Whys.{AreChangedPaths};

use git_object::ObjectId;
use keeper_api::{Keeper, KeeperFault};
use octets::{Items, Octets};
use std::alloc::Global;
use tree_paths::{Comparison, compare};

// What changed between two targets.
fn compared<R: Keeper>(
    alloc: Global,
    keeper: &mut R,
    from: &ObjectId,
    to: &ObjectId,
) -> Result<Comparison, KeeperFault>
    ensures compared { IfOk result (λ c. (r : Repository) → R.content keeper.new ≡ Some r
        → IsComparison (walk_of (readings_of r) from.now) (walk_of (readings_of r) to.now) c) }
    ensures same { Undisturbed R.Keeper keeper.old keeper.new }
    ensures cause { HasCause keeper_failed (R.faults keeper.old) (R.faults keeper.new) result }
{
    compare(alloc, keeper, from, to)
}

/// The paths that changed from one target to another, in the order of their bytes; none where one of the two states is
/// broken.
pub(crate) fn changed_paths<R: Keeper>(
    alloc: Global,
    keeper: &mut R,
    from: &ObjectId,
    to: &ObjectId,
) -> Result<Items<Octets>, KeeperFault>
    ensures changed { IfOk result (λ paths. (r : Repository) → R.content keeper.new ≡ Some r
        → AreChangedPaths (walk_of (readings_of r) from.now) (walk_of (readings_of r) to.now) paths) }
    ensures same { Undisturbed R.Keeper keeper.old keeper.new }
    ensures cause { HasCause keeper_failed (R.faults keeper.old) (R.faults keeper.new) result }
{
    let found = compared(alloc, keeper, from, to)?;
    match found {
        Comparison::Broken { id: _ } => Ok(Items::new(alloc)),
        Comparison::Changed {
            from: _,
            to: _,
            paths,
        } => Ok(paths),
    }
}
