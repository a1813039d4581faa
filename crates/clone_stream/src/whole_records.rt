//! Object records that stand whole in bytes that are there already. Their ids are not checked.

ghost use Rattle.std.specs.Prelude.{◌≡◌, ◌≤◌, ◌++◌, ◌∷◌, [], length, decimal, IfSome};
ghost use Rattle.clone_stream.specs.Grouped.{Stand};
ghost use Rattle.clone_stream.specs.Streams.{object_line};
ghost use Rattle.clone_stream.specs.Words.{IsHead};

use crate::line_words::{ObjectLine, read_head};
use git_object::ObjectId;
use object_lanes::{LARGEST_GROUP, Unnamed};
use octets::Octets;
use std::alloc::Global;
use text_reader::{split_line, strip_front};

/// The id that an object's line says, and how many bytes its record has.
#[derive(Clone, Copy)]
pub struct Claim {
    pub id: ObjectId,
    pub len: usize,
}

/// The claims of a group's records and, in the same order, their objects.
#[derive(Drop)]
pub struct Group {
    pub claims: Vec<Claim>,
    pub objects: Vec<Unnamed>,
}

// The head and the body of the record in front, and what stands after it. It copies nothing.
fn whole_record(bytes: &[u8]) -> Option<(ObjectLine, &[u8], &[u8])>
    ensures valid { IfSome result (λ parts. IsHead parts.0) }
    ensures long { IfSome result (λ parts. length parts.1.now ≡ parts.0.size) }
    ensures found { IfSome result (λ parts. bytes.now ≡ object_line parts.0.id parts.0.kind (decimal parts.0.size)
        ++ 10 ∷ (parts.1.now ++ 10 ∷ parts.2.now)) }
{
    let Some((line, more)) = split_line(bytes) else {
        return None;
    };
    let Ok(head) = read_head(line) else {
        return None;
    };
    let size = head.size as usize;
    if more.len() < size {
        return None;
    }
    let (body, end) = more.split_at(size);
    let Some(rest) = strip_front(end, b"\n") else {
        return None;
    };
    Some((head, body, rest))
}

/// The records in front that stand there whole, up to a group of them; None where memory is wanting.
pub fn whole_records(alloc: Global, bytes: &[u8]) -> Option<Group>
    ensures stand { IfSome result (λ group. Stand group.claims.items group.objects.items bytes.now) }
    ensures few { IfSome result (λ group. length group.objects.items ≤ 8) }
{
    let mut claims = Vec::new(alloc);
    let mut objects = Vec::new(alloc);
    let mut rest = bytes;
    'records: while objects.len() < LARGEST_GROUP {
        let Some((head, body, more)) = whole_record(rest) else {
            return Some(Group { claims, objects });
        };
        let Ok(body) = Octets::from_slice(alloc, body) else {
            return None;
        };
        let claim = Claim {
            id: head.id,
            len: rest.len() - more.len(),
        };
        let Ok(()) = claims.push(claim) else {
            return None;
        };
        let object = Unnamed {
            kind: head.kind,
            body,
        };
        let Ok(()) = objects.push(object) else {
            return None;
        };
        rest = more;
    }
    Some(Group { claims, objects })
}
