//! The text of an object's file: its head and its body.

ghost use Rattle.std.specs.Prelude.{◌≡◌, ◌≢◌, ◌<◌, ◌≤◌, ◌^◌, ◌++◌, ◌∷◌, ℕ, List, decimal, length, IfOk, IfSome, IfNone};
ghost use Rattle.std.specs.Prelude.{OnOk};
ghost use Rattle.git_object.specs.Objects.{kind_name, object_text};
ghost use Rattle.git_object.specs.Repository.{largest_body};
ghost use Rattle.git_object.specs.declared.kinds.Kind.{Kind};
ghost use Rattle.keeper_directory.specs.Files.{IsNoObject, object_head};

use crate::file_calls::{read_front, read_up_to};
use crate::file_faults::FileFault;
use git_object::{Kind, LARGEST_BODY, Memory, Object, Octets};
use itoa::Buffer;
use std::alloc::Global;
use std::io::Read;
use text_reader::{read_decimal, split_at_zero};

// The most bytes of a body that are copied behind its head, so that both are written at once. A longer one is
// written by itself.
const SMALL_BODY: usize = 4096;

// As many bytes as no head has: a word, a space, at most 20 digits and a zero byte.
const LONGEST_HEAD: usize = 32;

// The most bytes that are read before the head is looked at.
const FIRST_PIECE: usize = 4096;

/// What the head of an object's file says, and what follows it.
#[derive(Clone, Copy)]
pub struct ObjectHeader<'a> {
    pub kind: Kind,
    pub size: u64,
    pub rest: &'a [u8],
}

// A number below 2^64 in decimal digits and a zero byte.
fn split_size(text: &[u8]) -> Option<(u64, &[u8])>
    ensures found { IfSome result (λ parts. text.now ≡ decimal parts.0 ++ 0 ∷ parts.1.now) }
    ensures none { IfNone result ((size : ℕ) (rest : List ℕ) → size < 2 ^ 64 → text.now ≢ decimal size ++ 0 ∷ rest) }
{
    let Some((digits, rest)) = split_at_zero(text) else {
        return None;
    };
    let Some(size) = read_decimal(digits) else {
        return None;
    };
    Some((size, rest))
}

/// The head of an object's file in front of the text, or None where none stands there (Git's object format).
pub fn split_head(text: &[u8]) -> Option<ObjectHeader<'_>>
    ensures found { IfSome result (λ head. text.now ≡ object_head head.kind head.size ++ head.rest.now) }
    ensures fits { IfSome result (λ head. head.size < 2 ^ 64) }
    ensures none { IfNone result ((kind : Kind) (size : ℕ) (rest : List ℕ) → size < 2 ^ 64
        → text.now ≢ object_head kind size ++ rest) }
{
    let Some((kind, after)) = Kind::split_front(text) else {
        return None;
    };
    let Some((size, rest)) = split_size(after) else {
        return None;
    };
    Some(ObjectHeader { kind, size, rest })
}

// Adds the head of an object's file at the end. After a refusal a front of it may stand there.
fn append_head(text: &mut Vec<u8>, kind: Kind, size: usize) -> Result<(), Memory>
    ensures { OnOk result (text.new.items ≡ text.old.items ++ object_head kind size) }
{
    let mut digits = Buffer::new();
    text.extend_from_slice(kind.name())?;
    text.extend_from_slice(b" ")?;
    text.extend_from_slice(digits.format(size).as_bytes())?;
    text.extend_from_slice(&[0])?;
    Ok(())
}

/// Makes the text an object's file up to its last part, and answers that part. With room for 8,192 bytes it
/// takes no memory.
pub fn make_object_text<'a>(text: &mut Vec<u8>, object: &'a Object) -> Result<&'a [u8], Memory>
    ensures { IfOk result (λ rest. text.new.items ++ rest.now ≡ object_text object.now.kind object.now.body) }
{
    let body = object.body();
    text.clear();
    append_head(text, object.kind(), body.len())?;
    if body.len() > SMALL_BODY {
        return Ok(body);
    }
    text.extend_from_slice(body)?;
    let (_, rest) = body.split_at(body.len());
    Ok(rest)
}

/// The object whose file a reader gives, to its end; None where what it gives is no object's file, or that of one
/// whose body has more than 16 MiB. Of such a body no byte is read past the first piece.
pub fn read_object<F: Read + Drop>(alloc: Global, file: F) -> Result<Option<Object>, FileFault>
    ensures found { IfOk result (λ found. IfSome found
        (λ o. IfSome (F.remaining file) (λ text. text ≡ object_text o.kind o.body))) }
    ensures fits { IfOk result (λ found. IfSome found (λ o. length o.body ≤ largest_body)) }
    ensures none { IfOk result (λ found. IfNone found (IfSome (F.remaining file) IsNoObject)) }
{
    let mut file = file;
    let front = read_front(alloc, &mut file, LONGEST_HEAD, FIRST_PIECE)?;
    let Some(head) = split_head(front.as_slice()) else {
        return Ok(None);
    };
    if head.size > LARGEST_BODY {
        return Ok(None);
    }
    let mut body = Vec::from_slice(alloc, head.rest)?;
    // One byte more than the body has would show that the file goes on.
    let left = head.size.saturating_sub(body.len() as u64) + 1;
    read_up_to(file, left, &mut body)?;
    if body.len() as u64 != head.size {
        return Ok(None);
    }
    let object = Object::new(alloc, head.kind, Octets::from_vec(body))?;
    Ok(Some(object))
}
