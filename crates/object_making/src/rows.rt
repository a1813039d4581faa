//! The row in front of a text.

ghost use Rattle.std.specs.Prelude.{◌≡◌, ◌≢◌, ◌≤◌, ◌++◌, ◌∷◌, ℕ, List, length, false, decimal, IfSome, IfNone};
ghost use Rattle.text_reader.specs.Line.{has_byte};
ghost use Rattle.git_object.specs.Modes.{mode_text};
ghost use Rattle.git_object.specs.Repository.{largest_body};
ghost use Rattle.git_object.specs.declared.modes.Mode.{Mode};
ghost use Rattle.object_making.specs.Rows.{IsFileMode, IsRow, Row, row_then};
ghost use Rattle.object_making.specs.Reading.{row_of};

use git_object::{LARGEST_BODY, Mode};
use text_reader::{
    NumberFault, read_decimal_within, split_front, split_line, split_word, strip_front,
};

/// The most bytes of a path.
const LONGEST_PATH: usize = 4096;

/// A row whose path and bytes are still part of a text.
#[derive(Clone, Copy)]
pub struct RowParts<'a> {
    pub mode: Mode,
    pub path: &'a [u8],
    pub body: &'a [u8],
}

// A mode that a row may have, and a space.
fn split_mode(text: &[u8]) -> Option<(Mode, &[u8])>
    ensures found { IfSome result (λ parts. text.now ≡ mode_text parts.0 ++ 32 ∷ parts.1.now) }
    ensures mode { IfSome result (λ parts. IsFileMode parts.0) }
    ensures none { IfNone result ((mode : Mode) (more : List ℕ) → IsFileMode mode → text.now ≢ mode_text mode ++ 32
        ∷ more) }
{
    match Mode::split_front(text) {
        Some((Mode::File, rest)) => Some((Mode::File, rest)),
        Some((Mode::Exec, rest)) => Some((Mode::Exec, rest)),
        Some((Mode::Link, rest)) => Some((Mode::Link, rest)),
        Some((Mode::Dir, _)) => None,
        Some((Mode::Module, _)) => None,
        None => None,
    }
}

// A size of at most 16 MiB, and a space.
fn split_size(text: &[u8]) -> Option<(u64, &[u8])>
    ensures found { IfSome result (λ parts. text.now ≡ decimal parts.0 ++ 32 ∷ parts.1.now) }
    ensures small { IfSome result (λ parts. parts.0 ≤ largest_body) }
    ensures none { IfNone result ((size : ℕ) (more : List ℕ) → size ≤ largest_body
        → text.now ≢ decimal size ++ 32 ∷ more) }
{
    let Some((word, rest)) = split_word(text) else {
        return None;
    };
    match read_decimal_within(word, LARGEST_BODY) {
        Ok(size) => Some((size, rest)),
        Err(NumberFault::NotNumber) => None,
        Err(NumberFault::TooLarge) => None,
    }
}

// A path of at most 4,096 bytes, and a line feed.
fn split_path(text: &[u8]) -> Option<(&[u8], &[u8])>
    ensures found { IfSome result (λ parts. text.now ≡ parts.0.now ++ 10 ∷ parts.1.now) }
    ensures line { IfSome result (λ parts. has_byte 10 parts.0.now ≡ false) }
    ensures short { IfSome result (λ parts. length parts.0.now ≤ 4096) }
    ensures none { IfNone result ((path more : List ℕ) → has_byte 10 path ≡ false → length path ≤ 4096
        → text.now ≢ path ++ 10 ∷ more) }
{
    let Some((path, rest)) = split_line(text) else {
        return None;
    };
    if path.len() > LONGEST_PATH {
        return None;
    }
    Some((path, rest))
}

// So many bytes, and a line feed.
fn split_body(text: &[u8], size: usize) -> Option<(&[u8], &[u8])>
    ensures found { IfSome result (λ parts. text.now ≡ parts.0.now ++ 10 ∷ parts.1.now) }
    ensures size { IfSome result (λ parts. length parts.0.now ≡ size) }
    ensures none { IfNone result ((body more : List ℕ) → length body ≡ size → text.now ≢ body ++ 10 ∷ more) }
{
    let Some((body, after)) = split_front(text, size) else {
        return None;
    };
    let Some(rest) = strip_front(after, b"\n") else {
        return None;
    };
    Some((body, rest))
}

// A path and so many bytes, each with a line feed.
fn split_file(text: &[u8], size: usize) -> Option<((&[u8], &[u8]), &[u8])>
    ensures found { IfSome result (λ parts. text.now ≡ parts.0.0.now ++ 10 ∷ (parts.0.1.now ++ 10 ∷ parts.1.now)) }
    ensures line { IfSome result (λ parts. has_byte 10 parts.0.0.now ≡ false) }
    ensures short { IfSome result (λ parts. length parts.0.0.now ≤ 4096) }
    ensures size { IfSome result (λ parts. length parts.0.1.now ≡ size) }
    ensures none { IfNone result ((path body more : List ℕ) → has_byte 10 path ≡ false → length path ≤ 4096
        → length body ≡ size → text.now ≢ path ++ 10 ∷ (body ++ 10 ∷ more)) }
{
    let Some((path, after)) = split_path(text) else {
        return None;
    };
    let Some((body, rest)) = split_body(after, size) else {
        return None;
    };
    Some(((path, body), rest))
}

/// The row in front of a text, and what follows it.
pub fn split_row(text: &[u8]) -> Option<(RowParts<'_>, &[u8])>
    ensures found { IfSome result (λ parts. text.now ≡ row_then (row_of parts.0.mode parts.0.path.now parts.0.body.now)
        parts.1.now) }
    ensures row { IfSome result (λ parts. IsRow (row_of parts.0.mode parts.0.path.now parts.0.body.now)) }
    ensures none { IfNone result ((row : Row) (more : List ℕ) → IsRow row → text.now ≢ row_then row more) }
{
    let Some((mode, after)) = split_mode(text) else {
        return None;
    };
    let Some((size, last)) = split_size(after) else {
        return None;
    };
    let Some(found) = split_file(last, size as usize) else {
        return None;
    };
    let (path, body) = found.0;
    Some((RowParts { mode, path, body }, found.1))
}
