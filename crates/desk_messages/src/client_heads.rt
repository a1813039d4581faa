//! The head of a reply in front of bytes.

ghost use Rattle.std.specs.Prelude.{IfSome, IfNone};
ghost use Rattle.desk_messages.specs.ClientHeads.{HasNoHead, IsHeadAt};

use httparse::Status;
use httparse::spans::{HeaderSpan, ResponseSpans, parse_response};

/// The most bytes of a head.
const LARGEST_HEAD: usize = 16384;

/// The most fields of a head.
pub(crate) const MOST_FIELDS: usize = 64;

/// The head that stands in front of bytes, where there is one, and writes where its fields are.
pub(crate) fn find_head(bytes: &[u8], fields: &mut [HeaderSpan; 64]) -> Option<ResponseSpans>
    ensures found { IfSome result (λ spans. IsHeadAt bytes.now fields.new spans) }
    ensures none { IfNone result (HasNoHead bytes.now) }
{
    match parse_response(bytes, fields) {
        Ok(Status::Complete(spans)) => {
            if spans.len > LARGEST_HEAD {
                return None;
            }
            Some(spans)
        }
        Ok(Status::Partial) => None,
        Err(_) => None,
    }
}
