//! Taking the objects whose records stand whole in what is buffered: their ids are computed in groups.

ghost use Rattle.std.specs.Prelude.{◌≡◌, ◌<◌, drop, length, map, take, IsTrue};
ghost use Rattle.object_lanes.specs.Groups.{unnamed_id};
ghost use Rattle.clone_stream.specs.Grouped.{GoesOn, Stand, StandsFirst};

use crate::records::may_come;
use crate::whole_records::{Claim, Group, whole_records};
use buffered_reader::BufferedReader;
use git_object::{Object, ObjectId, Objects};
use keeper_api::RefChange;
use object_lanes::{Unnamed, group_ids};
use std::alloc::Global;
use text_reader::same_bytes;

// How large a buffer is to be had where so many bytes of a stream were read: clearing it is not to cost a short stream
// more than it gains.
fn space_for(taken: u64) -> usize {
    if taken <= 4096 {
        0
    } else if taken <= 262_144 {
        262_144
    } else {
        4_194_304
    }
}

// Takes the object in front, where it may come; its id is its own. It is not taken where memory is wanting.
fn take_object(
    alloc: Global,
    reader: &mut BufferedReader,
    objects: &mut Objects,
    refs: &[RefChange],
    claim: Claim,
    object: Unnamed,
) -> bool
    requires stands { StandsFirst claim object reader.old.buffered }
    requires own { claim.id ≡ unnamed_id object }
    ensures goes_on { GoesOn objects.old objects.new refs.now reader.old reader.new }
    ensures taken { IsTrue result → reader.new.buffered ≡ drop claim.len reader.old.buffered }
{
    if !may_come(objects.as_slice(), refs, &claim.id) {
        return false;
    }
    let Ok(object) = Object::identified(alloc, claim.id, object.kind, object.body) else {
        return false;
    };
    let Ok(()) = objects.push(object) else {
        return false;
    };
    reader.pass(claim.len);
    true
}

// Takes the objects of a group that stands in front, one after the other: up to the first whose id is another than its
// line says, or that may not come, or that memory is wanting for.
fn take_each(
    alloc: Global,
    reader: &mut BufferedReader,
    objects: &mut Objects,
    refs: &[RefChange],
    group: Group,
    found: &[ObjectId],
)
    requires stand { Stand group.claims.items group.objects.items reader.old.buffered }
    requires found { take (length group.objects.items) found.now ≡ map unnamed_id group.objects.items }
    ensures { GoesOn objects.old objects.new refs.now reader.old reader.new }
{
    let mut bodies = group.objects;
    let mut claims = group.claims.as_slice();
    let mut ids = found;
    'objects: while let Some((claim, more_claims)) = claims.split_first() {
        let Some((id, more_ids)) = ids.split_first() else {
            return;
        };
        if !same_bytes(claim.id.as_bytes(), id.as_bytes()) {
            return;
        }
        let object = bodies.remove(0);
        if !take_object(alloc, reader, objects, refs, *claim, object) {
            return;
        }
        claims = more_claims;
        ids = more_ids;
    }
}

/// Takes up to eight objects whose records stand whole in what is buffered, as far as they may come and have the ids
/// that their lines say, and tells whether it took any. It refuses nothing and does not ask the source: what it leaves
/// is read record by record.
pub fn take_group(
    alloc: Global,
    reader: &mut BufferedReader,
    objects: &mut Objects,
    refs: &[RefChange],
) -> bool
    ensures goes_on { GoesOn objects.old objects.new refs.now reader.old reader.new }
    ensures some { IsTrue result → reader.old.taken < reader.new.taken }
{
    if !refs.is_empty() {
        return false;
    }
    let start = reader.taken();
    reader.widen(alloc, space_for(start));
    let Some(group) = whole_records(alloc, reader.buffered()) else {
        return false;
    };
    let found = group_ids(group.objects.as_slice());
    take_each(alloc, reader, objects, refs, group, &found);
    start < reader.taken()
}
