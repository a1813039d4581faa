//! The ids of a group, by lanes where they win.

ghost use Rattle.std.specs.Prelude.{◌≡◌, ◌≤◌, ◌<◌, ℕ, [], length, map, slice_index_or, take};
ghost use Rattle.object_lanes.specs.Groups.{unnamed_id};

use crate::heads::Unnamed;
use crate::lanes::by_lanes;
use git_object::{ObjectId, id_of};

/// The most objects of a group.
pub const LARGEST_GROUP: usize = 8;

// By how many times the blocks of all must be those of the longest. A lane that is done costs as much as one that
// works.
const SHARE: usize = 3;

fn lanes_win(group: &[Unnamed]) -> bool {
    let mut sum = 0usize;
    let mut longest = 0usize;
    'objects: for object in group {
        let blocks = object.body.len() / 64 + 1;
        sum = sum.saturating_add(blocks);
        longest = longest.max(blocks);
    }
    sum >= longest.saturating_mul(SHARE)
}

fn id_at(group: &[Unnamed], lane: usize) -> ObjectId
    ensures { lane < length group.now → result ≡ slice_index_or (map unnamed_id group.now) lane [] }
{
    match group.get(lane) {
        Some(object) => id_of(object.kind, object.body.as_slice()),
        None => ObjectId::zeros(),
    }
}

fn one_by_one(group: &[Unnamed]) -> [ObjectId; 8]
    ensures each { (i : ℕ) → i < 8 → i < length group.now → slice_index_or result i [] ≡ slice_index_or (map unnamed_id group.now) i [] }
    ensures long { length result ≡ 8 }
{
    let mut ids = [ObjectId::zeros(); 8];
    'lanes: for lane in 0..8 {
        ids[lane] = id_at(group, lane);
    }
    ids
}

/// The ids of up to eight objects, in their order: of each the SHA-256 of the kind's word, a space, the body's length
/// in decimal, a zero byte and the body (Git's object names). What follows them is no object's. It takes no memory.
pub fn group_ids(group: &[Unnamed]) -> [ObjectId; 8]
    requires { length group.now ≤ 8 }
    ensures { take (length group.now) result ≡ map unnamed_id group.now }
{
    if lanes_win(group) {
        by_lanes(group)
    } else {
        one_by_one(group)
    }
}
