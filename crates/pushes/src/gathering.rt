//! The objects of a push, by rising ids.

ghost use Rattle.std.specs.Prelude.{◌≡◌, ◌≤◌, ◌+◌, ◌++◌, ◌∷◌, [], ℕ, List, length, Some, IfOk, IfErr};
ghost use Rattle.std.specs.List.{flat_map};
ghost use Rattle.std.specs.List.Sorted.{IsPermutation};
ghost use Rattle.octets.specs.Causes.{HasCause};
ghost use Rattle.git_object.specs.Objects.{Pair};
ghost use Rattle.git_object.specs.Repository.{Repository};
ghost use Rattle.keeper_api.specs.Undisturbed.{Undisturbed};
ghost use Rattle.pushes.specs.Pushes.{AreOwn, largest_push, own_record};
ghost use Rattle.pushes.specs.Making.{AreFound, Rise, StopsGathering, frame_len, kept_among, make_failed};

use crate::records::record_len;
use crate::{LARGEST_PUSH, MakeFault};
use clone_stream::follows_object;
use git_object::{Memory, ObjectId, Objects};
use keeper_api::{Keeper, load_object};
use std::alloc::Global;

// How many bytes a push has beside the records of its objects.
const FRAME_LEN: u64 = 89;

/// These ids and one more, in the order of their bytes.
pub(crate) fn sorted_with(mut ids: Vec<ObjectId>, id: &ObjectId) -> Result<Vec<ObjectId>, Memory>
    ensures permutation { IfOk result (λ all. IsPermutation (ids.items ++ id.now ∷ []) all.items) }
    ensures rise { IfOk result (λ all. Rise all.items) }
{
    ids.push(*id)?;
    ids.as_mut_slice().sort_unstable();
    Ok(ids)
}

/// The objects of these ids, each once and by rising ids, where the push of them is within the limit.
pub(crate) fn gather<R: Keeper>(
    alloc: Global,
    keeper: &mut R,
    ids: &[ObjectId],
) -> Result<Objects, MakeFault>
    requires { Rise ids.now }
    ensures own { IfOk result (λ objects. (es : List (List ℕ × Pair)) × AreOwn es objects) }
    ensures short { IfOk result (λ objects. length (flat_map own_record objects) + frame_len ≤ largest_push) }
    ensures those { IfOk result (λ objects. (r : Repository) → R.content keeper.new ≡ Some r
        → objects ≡ kept_among r ids.now) }
    ensures found { IfOk result (λ objects. (r : Repository) → R.content keeper.new ≡ Some r
        → AreFound r ids.now objects) }
    ensures stops { IfErr result (λ fault. (r : Repository) → R.content keeper.new ≡ Some r
        → StopsGathering r ids.now fault) }
    ensures same { Undisturbed R.Keeper keeper.old keeper.new }
    ensures cause { HasCause make_failed (R.faults keeper.old) (R.faults keeper.new) result }
{
    let mut objects = Objects::new(alloc);
    let mut len = FRAME_LEN;
    'ids: for id in ids {
        if !follows_object(objects.as_slice(), id) {
            continue;
        }
        let _ = id.as_bytes();
        let Some(object) = load_object(alloc, keeper, id)? else {
            return Err(MakeFault::Missing { id: *id });
        };
        len = len.saturating_add(record_len(&object));
        if len > LARGEST_PUSH {
            return Err(MakeFault::TooLarge);
        }
        objects.push(object)?;
    }
    Ok(objects)
}
