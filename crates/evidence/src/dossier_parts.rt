//! The parts of a dossier's text, none of them copied.

ghost use Rattle.std.specs.Prelude.{◌≡◌, ◌<◌, ◌≤◌, ◌+◌, ◌^◌, ◌++◌, length, IfOk, IfErr, IfSome, IfNone, OnOk};
ghost use Rattle.git_object.specs.Repository.{largest_body};
ghost use Rattle.evidence.specs.Breaks.{BreaksKey, BreaksLast, BreaksLeft, BreaksRight, IsBreak, IsKeyLine, IsSide};
ghost use Rattle.evidence.specs.Breaks.{NoneBegins};
ghost use Rattle.evidence.specs.Dossiers.{IsPublic, bytes_in, end_line, key_line, side_text};
ghost use Rattle.evidence.specs.Parts.{HasKey, HasLeft, HasParts, HasRight};

use crate::public_bytes::PublicBytes;
use git_object::LARGEST_BODY;
use text_reader::{read_decimal_within, split_front, split_line, strip_front};

/// The first line.
pub(crate) const HEADER: &[u8] = b"gittuf-evidence 1\n";

/// The last line.
pub(crate) const END_LINE: &[u8] = b"end\n";

// The key whose line stands in front, and what follows the line.
fn split_key(text: &[u8]) -> Option<(PublicBytes, &[u8])>
    ensures found { IfSome result (λ parts. text.now ≡ key_line (bytes_in parts.0) ++ parts.1.now) }
    ensures public { IfSome result (λ parts. IsPublic (bytes_in parts.0)) }
    ensures none { IfNone result (NoneBegins IsKeyLine text.now) }
{
    let Some(words) = strip_front(text, b"key ") else {
        return None;
    };
    let Some(line) = split_line(words) else {
        return None;
    };
    let Some(public) = PublicBytes::from_hex(line.0) else {
        return None;
    };
    Some((public, line.1))
}

// The body that stands in front under a word, behind its size, and what follows it.
fn split_side<'a>(text: &'a [u8], word: &[u8]) -> Option<(&'a [u8], &'a [u8])>
    ensures found { IfSome result (λ parts. text.now ≡ side_text word.now parts.0.now ++ parts.1.now) }
    ensures small { IfSome result (λ parts. length parts.0.now ≤ largest_body) }
    ensures none { IfNone result (NoneBegins (IsSide word.now) text.now) }
{
    let Some(words) = strip_front(text, word) else {
        return None;
    };
    let Some(line) = split_line(words) else {
        return None;
    };
    let Ok(size) = read_decimal_within(line.0, LARGEST_BODY) else {
        return None;
    };
    let Some(parts) = split_front(line.1, size as usize) else {
        return None;
    };
    let Some(more) = strip_front(parts.1, b"\n") else {
        return None;
    };
    Some((parts.0, more))
}

// Takes the last line, behind which nothing may stand. The error is the place of the first break.
fn read_last(text: &[u8], at: u64) -> Result<(), u64>
    requires { at + length text.now < 2 ^ 64 }
    ensures ok { OnOk result (text.now ≡ end_line) }
    ensures bad { IfErr result (BreaksLast at text.now) }
{
    let Some(more) = strip_front(text, END_LINE) else {
        return Err(at);
    };
    if !more.is_empty() {
        return Err(at + END_LINE.len() as u64);
    }
    Ok(())
}

// The right body, from its line on.
fn read_right(text: &[u8], at: u64) -> Result<&[u8], u64>
    requires { at + length text.now < 2 ^ 64 }
    ensures found { IfOk result (λ right. HasRight text.now right.now) }
    ensures bad { IfErr result (BreaksRight at text.now) }
{
    let Some((right, rest)) = split_side(text, b"right ") else {
        return Err(at);
    };
    match read_last(rest, at + (text.len() - rest.len()) as u64) {
        Ok(()) => Ok(right),
        Err(place) => Err(place),
    }
}

// Both bodies, from the left one's line on.
fn read_left(text: &[u8], at: u64) -> Result<(&[u8], &[u8]), u64>
    requires { at + length text.now < 2 ^ 64 }
    ensures found { IfOk result (λ sides. HasLeft text.now sides.0.now sides.1.now) }
    ensures bad { IfErr result (BreaksLeft at text.now) }
{
    let Some((left, rest)) = split_side(text, b"left ") else {
        return Err(at);
    };
    match read_right(rest, at + (text.len() - rest.len()) as u64) {
        Ok(right) => Ok((left, right)),
        Err(place) => Err(place),
    }
}

// The key and both bodies, from the key's line on.
fn read_key(text: &[u8], at: u64) -> Result<(PublicBytes, &[u8], &[u8]), u64>
    requires { at + length text.now < 2 ^ 64 }
    ensures found { IfOk result (λ parts. HasKey text.now (bytes_in parts.0) parts.1.now parts.2.now) }
    ensures bad { IfErr result (BreaksKey at text.now) }
{
    let Some((public, rest)) = split_key(text) else {
        return Err(at);
    };
    match read_left(rest, at + (text.len() - rest.len()) as u64) {
        Ok((left, right)) => Ok((public, left, right)),
        Err(place) => Err(place),
    }
}

/// The key and the two bodies of a text, or the place of its first break.
pub(crate) fn read_parts(text: &[u8]) -> Result<(PublicBytes, &[u8], &[u8]), u64>
    ensures found { IfOk result (λ parts. HasParts text.now (bytes_in parts.0) parts.1.now parts.2.now) }
    ensures bad { IfErr result (IsBreak text.now) }
{
    let Some(rest) = strip_front(text, HEADER) else {
        return Err(0);
    };
    read_key(rest, HEADER.len() as u64)
}
