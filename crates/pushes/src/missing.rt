//! The first of some objects that is not there.

ghost use Rattle.std.specs.Prelude.{◌≡◌, Some, IfOk};
ghost use Rattle.octets.specs.Causes.{HasCause};
ghost use Rattle.git_object.specs.Repository.{Repository};
ghost use Rattle.keeper_api.specs.Faults.{keeper_failed};
ghost use Rattle.keeper_api.specs.Undisturbed.{Undisturbed};
ghost use Rattle.pushes.specs.Making.{first_missing};

use crate::is_kept;
use git_object::ObjectId;
use keeper_api::{Keeper, KeeperFault};
use std::alloc::Global;

/// The first of these ids under which the store has no object.
pub(crate) fn first_missing<R: Keeper>(
    alloc: Global,
    keeper: &mut R,
    ids: &[ObjectId],
) -> Result<Option<ObjectId>, KeeperFault>
    ensures first { IfOk result (λ found. (r : Repository) → R.content keeper.new ≡ Some r
        → found ≡ first_missing r ids.now) }
    ensures same { Undisturbed R.Keeper keeper.old keeper.new }
    ensures cause { HasCause keeper_failed (R.faults keeper.old) (R.faults keeper.new) result }
{
    'ids: for id in ids {
        if !is_kept(alloc, keeper, id)? {
            return Ok(Some(*id));
        }
    }
    Ok(None)
}
