//! A reply, read.

ghost use Rattle.std.specs.Prelude.{IfOk, IfErr};
ghost use Rattle.desk_messages.specs.ClientHeads.{IsHeadAt};
ghost use Rattle.desk_messages.specs.Replies.{IsBad, IsReply};

use crate::client_fields::said_length;
use crate::client_heads::{MOST_FIELDS, find_head};
use httparse::spans::{EMPTY_HEADER_SPAN, HeaderSpan, ResponseSpans};

/// The most bytes that are read of what a desk sends: one more than a reply may have, which are a head of 16,384 bytes
/// and a body of 4,096.
pub const MOST_READ: usize = 20481;

/// Why bytes are no reply.
#[derive(Clone, Copy, Debug, PartialEq, Eq, Drop)]
pub enum BadReply {
    /// No head of at most 16,384 bytes and 64 fields stands in front.
    NoHead,
    /// The head does not say one length of at most 4,096 bytes.
    NoLength,
    /// It says another length than the body has.
    OtherLength { said: u64, found: u64 },
}

// The reply whose head is at these places.
#[tactic(auto, using(crate::proofs::ClientReading::whole, crate::proofs::ClientReading::no_length, crate::proofs::ClientReading::other_length))]
fn reply_at<'b>(
    bytes: &'b [u8],
    fields: &[HeaderSpan],
    spans: ResponseSpans,
) -> Result<(u16, &'b [u8]), BadReply>
    requires { IsHeadAt bytes.now fields.now spans }
    ensures reply { IfOk result (λ reply. IsReply bytes.now reply.0 reply.1.now) }
    ensures bad { IfErr result (IsBad bytes.now) }
{
    let (fields, _) = fields.split_at(spans.headers);
    let (_, body) = bytes.split_at(spans.len);
    let Some(said) = said_length(bytes, fields) else {
        return Err(BadReply::NoLength);
    };
    if said != body.len() as u64 {
        return Err(BadReply::OtherLength {
            said,
            found: body.len() as u64,
        });
    }
    Ok((spans.code, body))
}

/// The code and the body of a reply, which are the whole bytes. Each cause comes exactly where it is: the first in the
/// order of `BadReply` is the only one. It takes no memory.
pub fn read_reply(bytes: &[u8]) -> Result<(u16, &[u8]), BadReply>
    ensures reply { IfOk result (λ reply. IsReply bytes.now reply.0 reply.1.now) }
    ensures bad { IfErr result (IsBad bytes.now) }
{
    let mut fields = [EMPTY_HEADER_SPAN; MOST_FIELDS];
    match find_head(bytes, &mut fields) {
        Some(spans) => reply_at(bytes, &fields, spans),
        None => Err(BadReply::NoHead),
    }
}
