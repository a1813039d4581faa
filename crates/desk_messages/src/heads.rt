//! The head of a request, read from a source.

ghost use Rattle.std.specs.Prelude.{◌≡◌, ◌≤◌, ◌⊎◌, length, take, drop, IfOk, IfSome, IfNone, OnErr};
ghost use Rattle.octets.specs.Causes.{HasCause, each};
ghost use Rattle.octets.specs.Content.{with_front};
ghost use Rattle.edge_io.specs.Read.{IsAtEnd};
ghost use Rattle.desk_messages.specs.Heads.{HasNoHead, NeverHasHead, largest_head};
ghost use Rattle.desk_messages.specs.Reading.{HasFront};
ghost use Rattle.desk_messages.specs.Parts.{IsHeadAt, WhenCut, WhenRefused, WhenWhole};

use edge_io::{Failed, Source};
use httparse::Status;
use httparse::spans::{HeaderSpan, RequestSpans, parse_request};

/// The most bytes of a head.
pub(crate) const LARGEST_HEAD: usize = 16384;

/// The most fields of a head.
pub(crate) const MOST_FIELDS: usize = 64;

// What stands in front of bytes.
enum Front {
    Head(RequestSpans),
    // No head yet.
    Cut,
    // No head, whatever follows.
    Refused,
}

// Looks for a head in front of bytes, and writes where its fields are.
fn parse_head(bytes: &[u8], fields: &mut [HeaderSpan; 64]) -> Front
    requires { length bytes.now ≤ largest_head }
    ensures whole { WhenWhole result (λ spans. IsHeadAt bytes.now fields.new spans) }
    ensures cut { WhenCut result (HasNoHead bytes.now) }
    ensures refused { WhenRefused result (NeverHasHead bytes.now) }
{
    match parse_request(bytes, fields) {
        Ok(Status::Complete(spans)) => Front::Head(spans),
        Ok(Status::Partial) => Front::Cut,
        Err(_) => Front::Refused,
    }
}

/// Reads until a head stands in front of what was read, none can come any more, the buffer is full or the input ends.
/// Answers how many bytes were read into the front of `bytes`, and the head where one is there.
pub(crate) fn read_head<S: Source>(
    source: &mut S,
    bytes: &mut [u8],
    fields: &mut [HeaderSpan; 64],
) -> Result<(usize, Option<RequestSpans>), Failed>
    requires { length bytes.old ≡ largest_head }
    ensures within { IfOk result (λ found. found.0 ≤ length bytes.new) }
    ensures read { IfOk result (λ found. S.left source.old
        ≡ with_front (take found.0 bytes.new) (S.left source.new)) }
    ensures head { IfOk result (λ found. IfSome found.1 (IsHeadAt (take found.0 bytes.new) fields.new)) }
    ensures none { IfOk result (λ found. IfNone found.1 (HasNoHead (take found.0 bytes.new))) }
    ensures stops { IfOk result (λ found. IfNone found.1
        (IsAtEnd (S.left source.new) ⊎ NeverHasHead (take found.0 bytes.new))) }
    ensures nothing { IfOk result (λ found. found.0 ≡ 0 → IsAtEnd (S.left source.new)) }
    ensures failed { OnErr result (HasFront (S.left source.old) (S.left source.new)) }
    ensures cause { HasCause each (S.faults source.old) (S.faults source.new) result }
{
    let mut len = 0;
    'pieces: while len < bytes.len() {
        let (_, space) = bytes.split_at_mut(len);
        let count = source.read(space)?;
        if count == 0 {
            return Ok((len, None));
        }
        len += count;
        match parse_head(&bytes[..len], fields) {
            Front::Head(spans) => return Ok((len, Some(spans))),
            Front::Refused => return Ok((len, None)),
            Front::Cut => {}
        }
    }
    Ok((len, None))
}
