//! The length that the fields of a head say, at their places in bytes.

ghost use Rattle.std.specs.Prelude.{◌≡◌, ◌≤◌, ◌∷◌, [], ℕ, IfSome, IfNone, decimal};
ghost use Rattle.desk_messages.specs.Parts.{pairs_at};
ghost use Rattle.desk_messages.specs.ClientHeads.{SaysIn, largest_body};

use crate::{Named, only_named, part_at};
use httparse::spans::HeaderSpan;
use text_reader::read_decimal;

// The most bytes of a body.
const LARGEST_BODY: u64 = 4096;

// The length that a value is.
fn length_in(value: &[u8]) -> Option<u64>
    ensures some { IfSome result (λ len. (value.now ∷ [] ≡ decimal len ∷ []) × (len ≤ largest_body)) }
    ensures none { IfNone result ((len : ℕ) → len ≤ largest_body → value.now ∷ [] ≡ decimal len ∷ [] → ⊥) }
{
    let Some(len) = read_decimal(value) else {
        return None;
    };
    if len > LARGEST_BODY {
        return None;
    }
    Some(len)
}

/// The length of the body that the fields say, where one of them says one that a body may have, and no other any.
pub(crate) fn said_length(bytes: &[u8], fields: &[HeaderSpan]) -> Option<u64>
    ensures some { IfSome result (λ len. SaysIn (pairs_at bytes.now fields.now) len × (len ≤ largest_body)) }
    ensures none { IfNone result ((len : ℕ) → len ≤ largest_body → SaysIn (pairs_at bytes.now fields.now) len → ⊥) }
{
    match only_named(bytes, fields, b"content-length") {
        Named::No => None,
        Named::Once(value) => length_in(part_at(bytes, value)),
        Named::Often => None,
    }
}
