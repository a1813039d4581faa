//! The fields of a head, at their places in bytes.

ghost use Rattle.std.specs.Prelude.{◌≡◌, ◌∷◌, ◌++◌, [], ℕ, List, Option, IfOk, OnErr};
ghost use Rattle.httparse.specs.Spans.{header_bytes, span_bytes};
ghost use Rattle.desk_messages.specs.Lengths.{Gives, SaysIn, same_name, values_of};
ghost use Rattle.desk_messages.specs.Parts.{IsOnly, pairs_at};

use httparse::spans::{HeaderSpan, Span};
use text_reader::read_decimal;

// The greatest length that may be said: 2^63 - 1.
const LARGEST_LENGTH: u64 = 0x7fff_ffff_ffff_ffff;

// A length that no body has, or that is said more than once.
#[derive(Drop)]
pub(crate) struct BadLength;

/// The bytes between two places, as far as there are any.
pub fn part_at(bytes: &[u8], span: Span) -> &[u8]
    ensures { result.now ≡ span_bytes bytes.now span }
{
    let end = span.end.min(bytes.len());
    let start = span.start.min(end);
    &bytes[start..end]
}

// Whether a field has this name, whatever the case of its letters.
fn is_named(bytes: &[u8], field: HeaderSpan, name: &[u8]) -> bool
    ensures { result ≡ same_name name.now (header_bytes bytes.now field).0 }
{
    name.eq_ignore_ascii_case(part_at(bytes, field.name))
}

/// What the fields of a name come to: none has it, one has it with its value at this place, or several have it.
#[derive(Clone, Copy, Drop)]
pub enum Named {
    No,
    Once(Span),
    Often,
}

// One field of the name more.
fn one_more(found: Named, value: Span) -> Named
    ensures { (bytes : List ℕ) (values : List (List ℕ)) → IsOnly bytes values found
        → IsOnly bytes (values ++ span_bytes bytes value ∷ []) result }
{
    match found {
        Named::No => Named::Once(value),
        Named::Once(_) => Named::Often,
        Named::Often => Named::Often,
    }
}

// What the fields of this name come to, where this field comes after those before.
fn with_field(bytes: &[u8], found: Named, field: HeaderSpan, name: &[u8]) -> Named
    ensures { (values : List (List ℕ)) → IsOnly bytes.now values found
        → IsOnly bytes.now (values ++ values_of name.now (header_bytes bytes.now field ∷ [])) result }
{
    if is_named(bytes, field, name) {
        return one_more(found, field.value);
    }
    found
}

/// What the fields of this name come to, whatever the case of its letters.
pub fn only_named(bytes: &[u8], fields: &[HeaderSpan], name: &[u8]) -> Named
    ensures { IsOnly bytes.now (values_of name.now (pairs_at bytes.now fields.now)) result }
{
    let mut found = Named::No;
    'fields: for field in fields {
        found = with_field(bytes, found, *field, name);
    }
    found
}

// The number of a length.
fn length_in(value: &[u8]) -> Result<u64, BadLength>
    ensures ok { IfOk result (λ number. Gives (value.now ∷ []) (Some number)) }
    ensures bad { OnErr result ((said : Option ℕ) → Gives (value.now ∷ []) said → ⊥) }
{
    let Some(number) = read_decimal(value) else {
        return Err(BadLength);
    };
    if number > LARGEST_LENGTH {
        return Err(BadLength);
    }
    Ok(number)
}

/// The length of the body that the fields say, or None where they say none.
pub(crate) fn said_length(bytes: &[u8], fields: &[HeaderSpan]) -> Result<Option<u64>, BadLength>
    ensures ok { IfOk result (SaysIn (pairs_at bytes.now fields.now)) }
    ensures bad { OnErr result ((said : Option ℕ) → SaysIn (pairs_at bytes.now fields.now) said → ⊥) }
{
    if !matches!(only_named(bytes, fields, b"transfer-encoding"), Named::No) {
        return Err(BadLength);
    }
    match only_named(bytes, fields, b"content-length") {
        Named::No => Ok(None),
        Named::Once(value) => match length_in(part_at(bytes, value)) {
            Ok(number) => Ok(Some(number)),
            Err(fault) => Err(fault),
        },
        Named::Often => Err(BadLength),
    }
}
