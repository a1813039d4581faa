//! Whether the commit of one target descends from the commit of another.

ghost use Rattle.std.specs.Prelude.{◌≡◌, Some, IfOk};
ghost use Rattle.octets.specs.Causes.{HasCause};
ghost use Rattle.git_object.specs.Repository.{Repository};
ghost use Rattle.keeper_api.specs.Faults.{keeper_failed};
ghost use Rattle.keeper_api.specs.Undisturbed.{Undisturbed};
ghost use Rattle.global_rules.specs.Targets.{AreReadsIn, IsDescentIn};

use crate::Descent;
use crate::walking::walk;
use git_object::ObjectId;
use keeper_api::{Keeper, KeeperFault};
use std::alloc::Global;
use tree_paths::{Peeled, root_of};

/// Whether the commit to which a target is peeled has the commit of another, `from`, among its first `most` ancestors.
/// Each target descends from zeros, where nothing stands; else zeros descends from none, nor does what is peeled to no
/// commit, nor anything from that. Each id that is met is read once, behind at most 18 reads for both targets; what
/// leads to no commit is passed over.
pub fn descends<R: Keeper>(
    alloc: Global,
    keeper: &mut R,
    target: &ObjectId,
    from: &ObjectId,
    most: u64,
) -> Result<Descent, KeeperFault>
    ensures descent { IfOk result (λ descent. (r : Repository) → R.content keeper.new ≡ Some r
        → IsDescentIn most r target.now from.now descent) }
    ensures same { Undisturbed R.Keeper keeper.old keeper.new }
    ensures cause { HasCause keeper_failed (R.faults keeper.old) (R.faults keeper.new) result }
    ensures reads { (r : Repository) → R.content keeper.new ≡ Some r
        → AreReadsIn most r target.now (R.reads keeper.old) (R.reads keeper.new) }
{
    let start = root_of(alloc, keeper, from)?;
    let end = root_of(alloc, keeper, target)?;
    match start {
        Peeled::Nothing => Ok(Descent::Yes),
        Peeled::Bad(_) => Ok(Descent::No),
        Peeled::At {
            commit: from,
            tree: _,
        } => match end {
            Peeled::Nothing => Ok(Descent::No),
            Peeled::Bad(_) => Ok(Descent::No),
            Peeled::At { commit, tree: _ } => walk(alloc, keeper, &commit, &from, most),
        },
    }
}
