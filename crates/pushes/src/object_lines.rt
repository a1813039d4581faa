//! The objects of a push, one after the other.

ghost use Rattle.std.specs.Prelude.{◌≡◌, ◌≢◌, ◌<◌, ◌≤◌, ◌-◌, ◌^◌, ◌++◌, ◌∷◌};
ghost use Rattle.std.specs.Prelude.{◌⊎◌, ℕ, List, length, decimal, map, min};
ghost use Rattle.std.specs.Prelude.{IfOk, IfErr, IfSome, IfNone, IsErrOf};
ghost use Rattle.text_reader.specs.Number.{IsNumber, number_of};
ghost use Rattle.buffered_reader.specs.Lines.{IsLine};
ghost use Rattle.git_object.specs.Ids.{IsId};
ghost use Rattle.git_object.specs.Objects.{Pair, object_id, pair_id};
ghost use Rattle.git_object.specs.Repository.{largest_body};
ghost use Rattle.git_object.specs.declared.kinds.Kind.{Kind};
ghost use Rattle.clone_stream.specs.Reading.{ComesAfter, last_of};
ghost use Rattle.clone_stream.specs.Streams.{IsOwn, object_line, object_record};
ghost use Rattle.std.specs.Arc.{arc_value};
ghost use Rattle.pushes.specs.Fronts.{EndsObjects, HasHuge, IsEndOf, IsObjects, IsTooLarge, StopsHuge, StopsObjects};

use crate::PushFault;
use clone_stream::{follows_object, split_head};
use git_object::{Kind, LARGEST_BODY, Object, ObjectId, Objects, id_of};
use octets::{Memory, Octets};
use std::alloc::Global;
use std::sync::Arc;
use text_reader::{
    NumberFault, read_decimal_within, same_bytes, split_front, split_line, strip_front,
};

// The first line and what follows it, where it has at most 399 bytes.
fn next_line(text: &[u8]) -> Option<(&[u8], &[u8])>
    ensures found { IfSome result (λ parts. text.now ≡ parts.0.now ++ 10 ∷ parts.1.now) }
    ensures is_line { IfSome result (λ parts. IsLine parts.0.now) }
    ensures none { IfNone result ((line more : List ℕ) → IsLine line → text.now ≢ line ++ 10 ∷ more) }
{
    let Some(parts) = split_line(text) else {
        return None;
    };
    if parts.0.len() > 399 {
        return None;
    }
    Some(parts)
}

// The id, the kind and the size's digits of the object's line that stands in front, and what follows it.
fn head_line(text: &[u8]) -> Option<(ObjectId, Kind, &[u8], &[u8])>
    ensures found { IfSome result (λ parts. text.now ≡ object_line parts.0 parts.1 parts.2.now ++ 10 ∷ parts.3.now) }
    ensures is_line { IfSome result (λ parts. IsLine (object_line parts.0 parts.1 parts.2.now)) }
    ensures valid { IfSome result (λ parts. IsId parts.0) }
    ensures none { IfNone result ((id : List ℕ) (kind : Kind) (digits more : List ℕ) → IsId id
        → IsLine (object_line id kind digits) → text.now ≢ object_line id kind digits ++ 10 ∷ more) }
{
    let Some(parts) = next_line(text) else {
        return None;
    };
    let Some(head) = split_head(parts.0) else {
        return None;
    };
    Some((head.0, head.1, head.2, parts.1))
}

// A number past the limit, or 2^64 - 1 where it is greater.
fn large_number(digits: &[u8]) -> u64
    requires { IsNumber digits.now }
    ensures { result ≡ min (number_of digits.now) (2 ^ 64 - 1) }
{
    match read_decimal_within(digits, u64::MAX) {
        Ok(number) => number,
        Err(_) => u64::MAX,
    }
}

// The size of a body, None where the digits are no number.
fn size_of(digits: &[u8]) -> Result<Option<u64>, PushFault>
    ensures found { IfOk result (λ found. IfSome found (λ size. (digits.now ≡ decimal size) × (size ≤ largest_body))) }
    ensures none { IfOk result (λ found. IfNone found (IsNumber digits.now → ⊥)) }
    ensures large { IfErr result (IsTooLarge digits.now) }
{
    match read_decimal_within(digits, LARGEST_BODY) {
        Ok(size) => Ok(Some(size)),
        Err(NumberFault::NotNumber) => Ok(None),
        Err(NumberFault::TooLarge) => Err(PushFault::TooLarge {
            length: large_number(digits),
        }),
    }
}

// An object whose body stands in front of what ends the whole text, of which it is a part.
fn object_in(
    alloc: Global,
    whole: &Arc<Octets>,
    id: ObjectId,
    kind: Kind,
    body: &[u8],
    text: &[u8],
) -> Result<Object, Memory>
    requires ends { IsEndOf (arc_value whole.now) text.now }
    requires front { (rest : List ℕ) × (text.now ≡ body.now ++ rest) }
    requires own { id ≡ object_id kind body.now }
    ensures { IfOk result (λ object. object ≡ record { kind = kind; body = body.now }) }
{
    let from = whole.as_slice().len() - text.len();
    Object::shared(alloc, id, kind, whole, from, from + body.len())
}

// The object of a head: a body of this size with this id, and the line feed after it.
fn object_of<'a>(
    alloc: Global,
    whole: &Arc<Octets>,
    id: &ObjectId,
    kind: Kind,
    size: u64,
    text: &'a [u8],
) -> Result<Option<(Object, &'a [u8])>, Memory>
    requires small { size ≤ largest_body }
    requires ends { IsEndOf (arc_value whole.now) text.now }
    ensures found { IfOk result (λ found. IfSome found (λ parts. text.now ≡ parts.0.body ++ 10 ∷ parts.1.now)) }
    ensures own { IfOk result (λ found. IfSome found (λ parts. (pair_id parts.0 ≡ id.now) × (parts.0.kind ≡ kind)
        × (length parts.0.body ≡ size))) }
    ensures none { IfOk result (λ found. IfNone found ((body more : List ℕ) → length body ≡ size
        → object_id kind body ≡ id.now → text.now ≢ body ++ 10 ∷ more)) }
{
    let Some(parts) = split_front(text, size as usize) else {
        return Ok(None);
    };
    let Some(rest) = strip_front(parts.1, b"\n") else {
        return Ok(None);
    };
    let found = id_of(kind, parts.0);
    if !same_bytes(found.as_bytes(), id.as_bytes()) {
        return Ok(None);
    }
    let object = object_in(alloc, whole, found, kind, parts.0, text)?;
    Ok(Some((object, rest)))
}

// The object whose record stands in front and may come after these, and what follows it.
fn next_object<'a>(
    alloc: Global,
    whole: &Arc<Octets>,
    objects: &[Object],
    text: &'a [u8],
) -> Result<Option<(Object, &'a [u8])>, PushFault>
    requires { IsEndOf (arc_value whole.now) text.now }
    ensures found { IfOk result (λ found. IfSome found (λ parts. text.now ≡ object_record (pair_id parts.0, parts.0)
        ++ parts.1.now)) }
    ensures own { IfOk result (λ found. IfSome found (λ parts. IsOwn (pair_id parts.0, parts.0))) }
    ensures comes { IfOk result
        (λ found. IfSome found (λ parts. ComesAfter (last_of (map pair_id objects.now)) (pair_id parts.0))) }
    ensures none { IfOk result (λ found. IfNone found (EndsObjects (last_of (map pair_id objects.now)) text.now)) }
    ensures huge { IfErr result (StopsHuge text.now) }
{
    let Some(head) = head_line(text) else {
        return Ok(None);
    };
    let Some(size) = size_of(head.2)? else {
        return Ok(None);
    };
    let id = head.0;
    if !follows_object(objects, &id) {
        return Ok(None);
    }
    Ok(object_of(alloc, whole, &id, head.1, size, head.3)?)
}

/// The objects that stand in front of what ends the whole text by rising ids, and what follows the last of them. Their
/// bodies are parts of the whole.
pub(crate) fn read_objects<'a>(
    alloc: Global,
    whole: &Arc<Octets>,
    text: &'a [u8],
) -> Result<(Objects, &'a [u8]), PushFault>
    requires { IsEndOf (arc_value whole.now) text.now }
    ensures found { IfOk result (λ found. IsObjects text.now found.0 found.1.now) }
    ensures huge { IfErr result (StopsObjects text.now) }
{
    let mut objects = Objects::new(alloc);
    let mut rest = text;
    'objects: loop {
        let Some((object, more)) = next_object(alloc, whole, objects.as_slice(), rest)? else {
            return Ok((objects, rest));
        };
        objects.push(object)?;
        rest = more;
    }
}
