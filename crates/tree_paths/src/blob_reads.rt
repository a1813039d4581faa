//! Blobs of which no more than 1 MiB is read.

ghost use Rattle.std.specs.Prelude.{◌≡◌, ◌≤◌, ◌+◌, IfOk, Some};
ghost use Rattle.std.specs.Option.{option_map};
ghost use Rattle.octets.specs.Causes.{HasCause};
ghost use Rattle.git_object.specs.Repository.{Repository};
ghost use Rattle.keeper_api.specs.Faults.{keeper_failed};
ghost use Rattle.keeper_api.specs.Undisturbed.{Undisturbed};
ghost use Rattle.tree_paths.specs.Blobs.{blob_at, is_small_blob};

use git_object::{Kind, Object, ObjectId};
use keeper_api::{Keeper, KeeperFault, load_object};
use std::alloc::Global;

// The most bytes that are read: 1 MiB.
const LARGEST_BLOB: usize = 1048576;

fn is_small_blob(object: &Object) -> bool
    ensures { result ≡ is_small_blob object.now }
{
    match object.kind() {
        Kind::Blob => object.body().len() <= LARGEST_BLOB,
        Kind::Tree | Kind::Commit | Kind::Tag => false,
    }
}

/// The blob that an id names; None where it names nothing, another object, or a blob of more than 1 MiB. It makes at
/// most one read.
pub fn load_blob<R: Keeper>(
    alloc: Global,
    keeper: &mut R,
    id: &ObjectId,
) -> Result<Option<Object>, KeeperFault>
    ensures read { IfOk result (λ found. (r : Repository) → R.content keeper.new ≡ Some r
        → option_map (λ pair. pair.body) found ≡ blob_at r id.now) }
    ensures same { Undisturbed R.Keeper keeper.old keeper.new }
    ensures cause { HasCause keeper_failed (R.faults keeper.old) (R.faults keeper.new) result }
    ensures reads { R.reads keeper.new ≤ R.reads keeper.old + 1 }
{
    let Some(object) = load_object(alloc, keeper, id)? else {
        return Ok(None);
    };
    if is_small_blob(&object) {
        Ok(Some(object))
    } else {
        Ok(None)
    }
}
