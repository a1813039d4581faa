//! The text of the push of an entry.

ghost use Rattle.std.specs.Prelude.{◌≡◌, ◌≤◌, ◌+◌, ◌++◌, ◌∷◌, [], ℕ, List, length, Some, None, IfOk, IfErr, IsErrOf};
ghost use Rattle.std.specs.List.{flat_map};
ghost use Rattle.octets.specs.Causes.{HasCause};
ghost use Rattle.git_object.specs.Objects.{Pair};
ghost use Rattle.git_object.specs.Repository.{Repository};
ghost use Rattle.keeper_api.specs.Undisturbed.{Undisturbed};
ghost use Rattle.pushes.specs.Pushes.{AreOwn, AreRising, entry_in, largest_push, own_record};
ghost use Rattle.pushes.specs.Making.{AreFound, IsPushOf, IsWritten, Makes, StopsGathering, StopsWriting};
ghost use Rattle.pushes.specs.Making.{frame_len, kept_among, make_failed};

use crate::gathering::{gather, sorted_with};
use crate::going::ids_with;
use crate::missing::first_missing;
use crate::{MakeFault, Push, find_object, write_push};
use git_object::{Object, ObjectId, Objects};
use keeper_api::Keeper;
use octets::{Memory, Octets};
use rsl_chain::{Entry, object_entry, read_entry};
use std::alloc::Global;

// The objects of these ids and of one more.
fn gather_with<R: Keeper>(
    alloc: Global,
    keeper: &mut R,
    ids: Vec<ObjectId>,
    id: &ObjectId,
) -> Result<Objects, MakeFault>
    ensures own { IfOk result (λ objects. (es : List (List ℕ × Pair)) × AreOwn es objects) }
    ensures short { IfOk result (λ objects. length (flat_map own_record objects) + frame_len ≤ largest_push) }
    ensures those { IfOk result (λ objects. (r : Repository) → R.content keeper.new ≡ Some r
        → objects ≡ kept_among r (ids.items ++ id.now ∷ [])) }
    ensures found { IfOk result (λ objects. (r : Repository) → R.content keeper.new ≡ Some r
        → AreFound r (ids.items ++ id.now ∷ []) objects) }
    ensures stops { IfErr result (λ fault. (r : Repository) → R.content keeper.new ≡ Some r
        → StopsGathering r (ids.items ++ id.now ∷ []) fault) }
    ensures same { Undisturbed R.Keeper keeper.old keeper.new }
    ensures cause { HasCause make_failed (R.faults keeper.old) (R.faults keeper.new) result }
{
    let all = sorted_with(ids, id)?;
    gather(alloc, keeper, all.as_slice())
}

// The entry that the object of an id among these is.
fn entry_among(alloc: Global, objects: &[Object], id: &ObjectId) -> Result<Option<Entry>, Memory>
    requires { AreRising objects.now }
    ensures { IfOk result (λ found. found ≡ entry_in objects.now id.now) }
{
    match find_object(objects, id) {
        Some(object) => object_entry(alloc, object),
        None => Ok(None),
    }
}

// The text of the push of the entry of an id that is one of these objects.
fn text_of(alloc: Global, objects: Objects, id: &ObjectId) -> Result<Octets, MakeFault>
    requires own { (es : List (List ℕ × Pair)) × AreOwn es objects }
    requires short { length (flat_map own_record objects) + frame_len ≤ largest_push }
    ensures written { IfOk result (IsWritten objects id.now) }
    ensures stops { IfErr result (StopsWriting objects id.now) }
{
    let _ = id.as_bytes();
    let Some(entry) = entry_among(alloc, objects.as_slice(), id)? else {
        return Err(MakeFault::Broken { id: *id });
    };
    let push = Push { entry, objects };
    Ok(write_push(alloc, &push)?)
}

/// The text of the push of the entry of an id, after these entries: with it go the objects that are reached from its
/// target, and not from the value that its reference had after those. `Missing` names the first of them that is not
/// there, in the order of the walk; `TooLarge` comes where all are there and the text would pass 64 MiB; `Broken` names
/// the id, or one of those before it, where no entry stands.
pub fn make_push<R: Keeper>(
    alloc: Global,
    keeper: &mut R,
    before: &[ObjectId],
    id: &ObjectId,
) -> Result<Octets, MakeFault>
    ensures makes { (r : Repository) → R.content keeper.new ≡ Some r → Makes r before.now id.now result }
    ensures push { IfOk result (IsPushOf id.now) }
    ensures same { Undisturbed R.Keeper keeper.old keeper.new }
    ensures cause { HasCause make_failed (R.faults keeper.old) (R.faults keeper.new) result }
{
    let _ = id.as_bytes();
    let entry = read_entry(alloc, keeper, id)?;
    let ids = ids_with(alloc, keeper, &entry.body, before)?;
    if let Some(missing) = first_missing(alloc, keeper, ids.as_slice())? {
        return Err(MakeFault::Missing { id: missing });
    }
    let objects = gather_with(alloc, keeper, ids, id)?;
    text_of(alloc, objects, id)
}
