//! The ids of a group by lanes: object i stands in lane i, and a lane without one hashes nothing that is read.

ghost use Rattle.std.specs.Prelude.{◌≡◌, ◌≤◌, ◌<◌, ℕ, [], length, map, slice_index_or, take};
ghost use Rattle.object_lanes.specs.Groups.{unnamed_head, unnamed_id};

use crate::heads::{Head, Unnamed, head_of};
use git_object::ObjectId;
use sha256_lanes::digest_eight;

fn head_at(group: &[Unnamed], lane: usize) -> Head
    ensures text { lane < length group.now → take result.len result.bytes ≡ slice_index_or (map unnamed_head group.now) lane [] }
    ensures short { result.len ≤ 64 }
{
    match group.get(lane) {
        Some(object) => head_of(object.kind, object.body.len()),
        None => Head {
            bytes: [0; 64],
            len: 0,
        },
    }
}

fn body_at(group: &[Unnamed], lane: usize) -> &[u8]
    ensures { lane < length group.now → result.now ≡ slice_index_or (map (λ object. object.body) group.now) lane [] }
{
    match group.get(lane) {
        Some(object) => object.body.as_slice(),
        None => b"",
    }
}

#[inline(always)]
fn id_from(digest: [u8; 32]) -> ObjectId
    ensures { result ≡ digest }
{
    ObjectId(digest)
}

fn named(digests: [[u8; 32]; 8]) -> [ObjectId; 8]
    ensures each { (i : ℕ) → i < 8 → slice_index_or result i [] ≡ slice_index_or digests i [] }
    ensures long { length result ≡ 8 }
{
    let mut ids = [ObjectId::zeros(); 8];
    'lanes: for lane in 0..8 {
        ids[lane] = id_from(digests[lane]);
    }
    ids
}

/// The ids of the objects of a group, each in its lane.
pub(crate) fn by_lanes(group: &[Unnamed]) -> [ObjectId; 8]
    ensures each { (i : ℕ) → i < 8 → i < length group.now → slice_index_or result i [] ≡ slice_index_or (map unnamed_id group.now) i [] }
    ensures long { length result ≡ 8 }
{
    let heads = [
        head_at(group, 0),
        head_at(group, 1),
        head_at(group, 2),
        head_at(group, 3),
        head_at(group, 4),
        head_at(group, 5),
        head_at(group, 6),
        head_at(group, 7),
    ];
    let lent = [
        heads[0].as_slice(),
        heads[1].as_slice(),
        heads[2].as_slice(),
        heads[3].as_slice(),
        heads[4].as_slice(),
        heads[5].as_slice(),
        heads[6].as_slice(),
        heads[7].as_slice(),
    ];
    let bodies = [
        body_at(group, 0),
        body_at(group, 1),
        body_at(group, 2),
        body_at(group, 3),
        body_at(group, 4),
        body_at(group, 5),
        body_at(group, 6),
        body_at(group, 7),
    ];
    named(digest_eight(&lent, &bodies))
}
