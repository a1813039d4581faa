//! Questions to any keeper.

ghost use Rattle.std.specs.Prelude.{◌≡◌, ◌↔◌, Some, IfOk, IfNone, IfSome, IsTrue};
ghost use Rattle.octets.specs.Causes.{HasCause, one_more};
ghost use Rattle.keeper_api.specs.Faults.{keeper_failed};
ghost use Rattle.git_object.specs.Objects.{Pair};
ghost use Rattle.git_object.specs.Repository.{HasObject, IsObject, Repository, empty_repository};
ghost use Rattle.keeper_api.specs.Undisturbed.{Undisturbed};

use crate::{Keeper, KeeperFault};
use git_object::{LARGEST_BODY, Object, ObjectId};
use std::alloc::Global;

/// Whether a keeper holds neither an object nor a reference.
pub fn is_empty<R: Keeper>(alloc: Global, keeper: &mut R) -> Result<bool, KeeperFault>
    ensures answer { IfOk result (λ empty. (r : Repository) → R.content keeper.new ≡ Some r
        → IsTrue empty ↔ (r ≡ empty_repository)) }
    ensures same { Undisturbed R.Keeper keeper.old keeper.new }
    ensures cause { HasCause keeper_failed (R.faults keeper.old) (R.faults keeper.new) result }
    ensures reads { R.reads keeper.new ≡ R.reads keeper.old }
{
    if keeper.next_object_after(alloc, None)?.is_some() {
        return Ok(false);
    }
    Ok(keeper.next_ref_after(alloc, None)?.is_none())
}

/// The object of an id: what is kept there where its own id is that one and its body has at most 16 MiB, and
/// else None. It makes one call of `read_object`, and hashes nothing that is hashed already.
pub fn load_object<R: Keeper>(
    alloc: Global,
    keeper: &mut R,
    id: &ObjectId,
) -> Result<Option<Object>, KeeperFault>
    ensures own { IfOk result (λ found. IfSome found (IsObject id.now)) }
    ensures found { IfOk result (λ found. (r : Repository) → R.content keeper.new ≡ Some r
        → IfSome found (HasObject r id.now)) }
    ensures none { IfOk result (λ found. (r : Repository) → R.content keeper.new ≡ Some r
        → IfNone found ((pair : Pair) → HasObject r id.now pair → ⊥)) }
    ensures same { Undisturbed R.Keeper keeper.old keeper.new }
    ensures cause { HasCause keeper_failed (R.faults keeper.old) (R.faults keeper.new) result }
    ensures reads { R.reads keeper.new ≡ one_more (R.reads keeper.old) }
{
    let Some(object) = keeper.read_object(alloc, id)? else {
        return Ok(None);
    };
    if object.id() != *id || object.body().len() as u64 > LARGEST_BODY {
        return Ok(None);
    }
    Ok(Some(object))
}
