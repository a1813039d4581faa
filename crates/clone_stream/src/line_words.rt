//! What the lines of a stream say.

ghost use Rattle.std.specs.Prelude.{◌≡◌, ◌≢◌, ◌++◌, ◌∷◌, ℕ, List, false, codes, decimal, IfOk, IfErr, IfSome, IfNone};
ghost use Rattle.std.specs.Prelude.{IsErrOf, OnErr};
ghost use Rattle.hex.specs.Hex.{encode_lower};
ghost use Rattle.text_reader.specs.Line.{has_byte};
ghost use Rattle.git_object.specs.Ids.{IsId};
ghost use Rattle.git_object.specs.Objects.{kind_name};
ghost use Rattle.git_object.specs.declared.kinds.Kind.{Kind};
ghost use Rattle.clone_stream.specs.Grammar.{BreaksGrammar, BreaksOther};
ghost use Rattle.clone_stream.specs.Streams.{IsRef, object_line, ref_line};
ghost use Rattle.clone_stream.specs.Words.{AreWords, IsHead, IsHugeLine, IsObjectLine, IsRefLine, words_line};

use crate::stream_faults::Break;
use git_object::{Kind, LARGEST_BODY, ObjectId, RefFault, RefName};
use keeper_api::RefValue;
use octets::Memory;
use std::alloc::Global;
use text_reader::{NumberFault, read_decimal_within, same_bytes, split_word, strip_front};

/// What the line of an object says: an id, a kind and the size of a body in bytes.
#[derive(Clone, Copy)]
pub struct ObjectLine {
    pub id: ObjectId,
    pub kind: Kind,
    pub size: u64,
}

/// What a line says.
#[derive(Drop)]
pub enum Words {
    Object(ObjectLine),
    Ref(RefValue),
    End,
}

/// Why a line is no object's.
#[derive(Clone, Copy)]
pub enum HeadFault {
    NotHead,
    TooLarge,
}

// An id and a space.
fn split_id(text: &[u8]) -> Option<(ObjectId, &[u8])>
    ensures found { IfSome result (λ parts. text.now ≡ encode_lower parts.0 ++ 32 ∷ parts.1.now) }
    ensures valid { IfSome result (λ parts. IsId parts.0) }
    ensures none { IfNone result ((id rest : List ℕ) → IsId id → text.now ≢ encode_lower id ++ 32 ∷ rest) }
{
    let Some(found) = ObjectId::split_front(text) else {
        return None;
    };
    let Some(rest) = strip_front(found.1, b" ") else {
        return None;
    };
    Some((found.0, rest))
}

/// The id, the kind and the size's digits of an object's line, whatever these digits are.
pub fn split_head(line: &[u8]) -> Option<(ObjectId, Kind, &[u8])>
    ensures found { IfSome result (λ parts. line.now ≡ object_line parts.0 parts.1 parts.2.now) }
    ensures valid { IfSome result (λ parts. IsId parts.0) }
    ensures none { IfNone result ((id : List ℕ) (kind : Kind) (digits : List ℕ) → IsId id
        → line.now ≢ object_line id kind digits) }
{
    let Some(words) = strip_front(line, b"object ") else {
        return None;
    };
    let Some(found) = split_id(words) else {
        return None;
    };
    let Some((kind, digits)) = Kind::split_front(found.1) else {
        return None;
    };
    let id = found.0;
    Some((id, kind, digits))
}

/// The head of an object's line. `NotHead` comes exactly where it is none, and `TooLarge` exactly where the size
/// is past 16 MiB.
pub(crate) fn read_head(line: &[u8]) -> Result<ObjectLine, HeadFault>
    ensures valid { IfOk result IsHead }
    ensures found { IfOk result (λ head. line.now ≡ object_line head.id head.kind (decimal head.size)) }
    ensures no_head { IsErrOf result HeadFault.NotHead → IsObjectLine line.now → ⊥ }
    ensures too_large { IsErrOf result HeadFault.TooLarge → IsHugeLine line.now }
{
    let Some(parts) = split_head(line) else {
        return Err(HeadFault::NotHead);
    };
    let id = parts.0;
    let kind = parts.1;
    match read_decimal_within(parts.2, LARGEST_BODY) {
        Ok(size) => Ok(ObjectLine { id, kind, size }),
        Err(NumberFault::NotNumber) => Err(HeadFault::NotHead),
        Err(NumberFault::TooLarge) => Err(HeadFault::TooLarge),
    }
}

// The name and the id of a reference's line, whatever the name is.
fn split_ref(line: &[u8]) -> Option<(&[u8], ObjectId)>
    ensures found { IfSome result (λ parts. line.now ≡ ref_line parts.0.now parts.1) }
    ensures valid { IfSome result (λ parts. IsId parts.1) }
    ensures word { IfSome result (λ parts. has_byte 32 parts.0.now ≡ false) }
    ensures none { IfNone result ((name id : List ℕ) → IsRef (name, id) → line.now ≢ ref_line name id) }
{
    let Some(words) = strip_front(line, b"ref ") else {
        return None;
    };
    let Some((name, digits)) = split_word(words) else {
        return None;
    };
    let Some(id) = ObjectId::from_hex(digits) else {
        return None;
    };
    Some((name, id))
}

// The reference of a line, None where it is no reference's.
fn read_ref(alloc: Global, line: &[u8]) -> Result<Option<RefValue>, Memory>
    ensures found { IfOk result (λ found. IfSome found (λ value. IsRef (value.name, value.id)
        × (line.now ≡ ref_line value.name value.id))) }
    ensures none { IfOk result (λ found. IfNone found (IsRefLine line.now → ⊥)) }
    ensures lacks { OnErr result (IsRefLine line.now) }
{
    let Some(parts) = split_ref(line) else {
        return Ok(None);
    };
    let id = parts.1;
    match RefName::read(alloc, parts.0) {
        Ok(name) => Ok(Some(RefValue { name, id })),
        Err(RefFault::BadRef) => Ok(None),
        Err(RefFault::Memory) => Err(Memory),
    }
}

// What a line says that is no object's.
fn other_words(alloc: Global, line: &[u8], at: u64) -> Result<Words, Break>
    ensures valid { IfOk result AreWords }
    ensures found { IfOk result (λ words. line.now ≡ words_line words) }
    ensures bad { IfErr result (BreaksOther at line.now) }
{
    if same_bytes(line, b"end") {
        return Ok(Words::End);
    }
    match read_ref(alloc, line)? {
        Some(value) => Ok(Words::Ref(value)),
        None => Err(Break::BadLine { at }),
    }
}

/// What a line says that begins at a place. `BadLine` comes exactly where it is none of the lines that may
/// stand there, and `TooLarge` exactly where it is an object's with a size past 16 MiB. Only a reference's line
/// takes memory.
pub fn words_of(alloc: Global, line: &[u8], at: u64) -> Result<Words, Break>
    ensures valid { IfOk result AreWords }
    ensures found { IfOk result (λ words. line.now ≡ words_line words) }
    ensures bad { IfErr result (BreaksGrammar at line.now) }
{
    match read_head(line) {
        Ok(head) => Ok(Words::Object(head)),
        Err(HeadFault::TooLarge) => Err(Break::TooLarge {
            limit: LARGEST_BODY,
        }),
        Err(HeadFault::NotHead) => other_words(alloc, line, at),
    }
}
