//! What stands in a line: ids, numbers, names, base64.

ghost use Rattle.std.specs.Prelude.{◌≡◌, ◌==◌, take, drop, IfOk};
ghost use Rattle.std.specs.Option.{option_copied};
ghost use Rattle.std.specs.Str.{bytes_eq};
ghost use Rattle.rsl_chain.specs.Lines;

use base64::DecodeAllocError;
use base64::engine::general_purpose::STANDARD;
use git_object::{KeyId, LOG_NAME, ObjectId, RefFault, RefName};
use octets::{Memory, Octets};
use std::alloc::Global;
use text_reader::{NumberFault, read_decimal_within, strip_front};

/// Who signed, and the signature.
#[derive(Drop)]
pub struct SignatureLine {
    pub signer: KeyId,
    pub signature: Octets,
}

/// Whether two texts are the same.
pub(crate) fn is_line(line: &[u8], wanted: &[u8]) -> bool
    ensures { result ≡ bytes_eq line.now wanted.now }
{
    line == wanted
}

// What follows the word that stands in front of the line.
fn strip<'a>(line: &'a [u8], word: &[u8]) -> Option<&'a [u8]>
    ensures { option_copied result ≡ Lines.strip word.now line.now }
{
    strip_front(line, word)
}

/// Whether the word stands in front of the line.
pub(crate) fn begins(line: &[u8], word: &[u8]) -> bool
    ensures { result ≡ Lines.begins word.now line.now }
{
    strip(line, word).is_some()
}

// The id of exactly 64 digits.
fn id_text(text: &[u8]) -> Option<ObjectId>
    ensures { result ≡ Lines.id_text text.now }
{
    ObjectId::from_hex(text)
}

/// The id after the word.
pub(crate) fn id_after(line: &[u8], word: &[u8]) -> Option<ObjectId>
    ensures { result ≡ Lines.id_after word.now line.now }
{
    match strip(line, word) {
        Some(text) => id_text(text),
        None => None,
    }
}

fn number_text(text: &[u8]) -> Option<u64>
    ensures { result ≡ Lines.number_text text.now }
{
    match read_decimal_within(text, 1000000) {
        Ok(number) => Some(number),
        Err(NumberFault::NotNumber) => None,
        Err(NumberFault::TooLarge) => None,
    }
}

/// The number after `number: `, up to 1,000,000.
pub(crate) fn number_after(line: &[u8]) -> Option<u64>
    ensures { result ≡ Lines.number_after line.now }
{
    match strip(line, b"number: ") {
        Some(text) => number_text(text),
        None => None,
    }
}

// The name, which is not the log's own.
fn name_text(alloc: Global, text: &[u8]) -> Result<Option<RefName>, Memory>
    ensures { IfOk result (λ name. name ≡ Lines.name_text text.now) }
{
    if is_line(text, LOG_NAME) {
        return Ok(None);
    }
    match RefName::read(alloc, text) {
        Ok(name) => Ok(Some(name)),
        Err(RefFault::BadRef) => Ok(None),
        Err(RefFault::Memory) => Err(Memory),
    }
}

/// The reference name after `ref: `.
pub(crate) fn name_after(alloc: Global, line: &[u8]) -> Result<Option<RefName>, Memory>
    ensures { IfOk result (λ name. name ≡ Lines.name_after line.now) }
{
    match strip(line, b"ref: ") {
        Some(text) => name_text(alloc, text),
        None => Ok(None),
    }
}

// The bytes of a base64 text.
fn decode(alloc: Global, text: &[u8]) -> Result<Option<Octets>, Memory>
    ensures { IfOk result (λ bytes. bytes ≡ Lines.decoded text.now) }
{
    match STANDARD.decode(alloc, text) {
        Ok(bytes) => Ok(Some(Octets::from_vec(bytes))),
        Err(DecodeAllocError::OutOfMemory) => Err(Memory),
        Err(DecodeAllocError::DecodeError(_)) => Ok(None),
    }
}

fn signature_text(alloc: Global, text: &[u8]) -> Result<Option<Octets>, Memory>
    ensures { IfOk result (λ bytes. bytes ≡ Lines.signature_text text.now) }
{
    if text.is_empty() {
        return Ok(None);
    }
    decode(alloc, text)
}

fn key_text(text: &[u8]) -> Option<KeyId>
    ensures { result ≡ Lines.id_text text.now }
{
    KeyId::from_hex(text)
}

// The first 64 bytes, or all where there are fewer, and the rest.
fn split_digits(text: &[u8]) -> (&[u8], &[u8])
    ensures front { result.0.now ≡ take 64 text.now }
    ensures back { result.1.now ≡ drop 64 text.now }
{
    text.split_at(text.len().min(64))
}

// A key's id, a space, a signature.
fn signed_text(alloc: Global, text: &[u8]) -> Result<Option<SignatureLine>, Memory>
    ensures { IfOk result (λ found. found ≡ Lines.signed_text text.now) }
{
    let (digits, rest) = split_digits(text);
    let Some(signer) = key_text(digits) else {
        return Ok(None);
    };
    let Some(base64) = strip(rest, b" ") else {
        return Ok(None);
    };
    let Some(signature) = signature_text(alloc, base64)? else {
        return Ok(None);
    };
    Ok(Some(SignatureLine { signer, signature }))
}

/// The signer and the signature after `lmssig `.
pub(crate) fn signature_after(alloc: Global, line: &[u8]) -> Result<Option<SignatureLine>, Memory>
    ensures { IfOk result (λ found. found ≡ Lines.signature_after line.now) }
{
    match strip(line, b"lmssig ") {
        Some(text) => signed_text(alloc, text),
        None => Ok(None),
    }
}

/// The bytes of one line of a message.
pub(crate) fn piece_text(alloc: Global, line: &[u8]) -> Result<Option<Octets>, Memory>
    ensures { IfOk result (λ bytes. bytes ≡ Lines.piece_text line.now) }
{
    if line.is_empty() || line.len() > 64 {
        return Ok(None);
    }
    decode(alloc, line)
}

/// Whether another line of a message may follow.
pub(crate) fn is_full(line: &[u8]) -> bool
    ensures { result ≡ Lines.is_full line.now }
{
    if line.len() != 64 {
        return false;
    }
    line[63] != b'='
}
