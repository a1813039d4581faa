//! Whether a change would put another object in the place of one that is kept.

ghost use Rattle.std.specs.Prelude.{◌≡◌, ◌↔◌, ◌≤◌, ◌+◌, Some, false, true, length, IfOk, IsTrue};
ghost use Rattle.octets.specs.Causes.{HasCause};
ghost use Rattle.git_object.specs.Repository.{Repository};
ghost use Rattle.keeper_api.specs.Faults.{keeper_failed};
ghost use Rattle.keeper_api.specs.Growing.{ClashesNowhere, NoneClashes};
ghost use Rattle.keeper_api.specs.Undisturbed.{Undisturbed};

use git_object::{Kind, Object};
use keeper_api::{Keeper, KeeperFault, load_object};
use std::alloc::Global;

fn is_same_kind(a: Kind, b: Kind) -> bool
    ensures { IsTrue result ↔ (a ≡ b) }
{
    a == b
}

fn is_same(a: &Object, b: &Object) -> bool
    ensures { IsTrue result ↔ (a.now ≡ b.now) }
{
    is_same_kind(a.kind(), b.kind()) && a.body() == b.body()
}

// Whether another object is kept under the id of this one.
fn clashes<R: Keeper>(alloc: Global, keeper: &mut R, object: &Object) -> Result<bool, KeeperFault>
    ensures none { IfOk result (λ clash. clash ≡ false → (r : Repository) → R.content keeper.new ≡ Some r
        → ClashesNowhere r object.now) }
    ensures some { IfOk result (λ clash. clash ≡ true → (r : Repository) → R.content keeper.new ≡ Some r
        → ClashesNowhere r object.now → ⊥) }
    ensures same { Undisturbed R.Keeper keeper.old keeper.new }
    ensures cause { HasCause keeper_failed (R.faults keeper.old) (R.faults keeper.new) result }
{
    match load_object(alloc, keeper, &object.id())? {
        Some(kept) => Ok(!is_same(&kept, object)),
        None => Ok(false),
    }
}

/// Whether another object is kept under the id of one of these. It reads one object for each.
pub fn replaces<R: Keeper>(
    alloc: Global,
    keeper: &mut R,
    objects: &[Object],
) -> Result<bool, KeeperFault>
    ensures none { IfOk result (λ clash. clash ≡ false → (r : Repository) → R.content keeper.new ≡ Some r
        → NoneClashes objects.now r) }
    ensures some { IfOk result (λ clash. clash ≡ true → (r : Repository) → R.content keeper.new ≡ Some r
        → NoneClashes objects.now r → ⊥) }
    ensures same { Undisturbed R.Keeper keeper.old keeper.new }
    ensures cause { HasCause keeper_failed (R.faults keeper.old) (R.faults keeper.new) result }
{
    'objects: for object in objects {
        if clashes(alloc, keeper, object)? {
            return Ok(true);
        }
    }
    Ok(false)
}
