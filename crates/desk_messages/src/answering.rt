//! What a head asks, with the bytes behind it.

ghost use Rattle.std.specs.Prelude.{◌≡◌, ◌⊎◌, false};
ghost use Rattle.octets.specs.Causes.{HasCause};
ghost use Rattle.desk_messages.specs.Asking.{page_asked, push_asked, verify_asked};
ghost use Rattle.desk_messages.specs.Behind.{Behind};
ghost use Rattle.desk_messages.specs.Parts.{IsHeadAt};
ghost use Rattle.desk_messages.specs.Reading.{HasFront, IsUnread, Reads, asked_as, body_len, is_link_fault};
ghost use Rattle.desk_messages.specs.Routes.{name_in};

use crate::bodies::{BodyFault, read_body};
use crate::fields::{part_at, said_length};
use crate::routes::{Choice, Page, find_allowed};
use crate::{Asked, Refusal};
use edge_io::Source;
use git_object::{LOG_NAME, RefFault, RefName};
use httparse::spans::{HeaderSpan, RequestSpans};
use std::alloc::Global;
use text_reader::same_bytes;

// The most bytes of the body of a push: 64 MiB.
const LARGEST_BODY: u64 = 64 << 20;

// How many bytes of a verdict's target stand in front of the name.
const NAME_AT: usize = 11;

// What is asked of the verdict on a reference of this name.
fn ask_verdict(alloc: Global, name: &[u8]) -> Asked
    ensures asked { (result ≡ Asked.Memory) ⊎ (result ≡ verify_asked name.now) }
    ensures quiet { is_link_fault result ≡ false }
{
    match RefName::read(alloc, name) {
        Ok(read) => {
            if same_bytes(name, LOG_NAME) {
                return Asked::Refused {
                    why: Refusal::BadRequest,
                };
            }
            Asked::Verify { name: read }
        }
        Err(RefFault::BadRef) => Asked::Refused {
            why: Refusal::BadRequest,
        },
        Err(RefFault::Memory) => Asked::Memory,
    }
}

// The name in a target.
fn name_of(target: &[u8]) -> &[u8]
    ensures { result.now ≡ name_in target.now }
{
    let (_, name) = target.split_at(NAME_AT.min(target.len()));
    name
}

// What a push asks of which the body has this length.
fn ask_push<S: Source>(alloc: Global, source: &mut S, len: u64, begun: &[u8]) -> Asked
    ensures asked { IsUnread result ⊎ Behind (push_asked (Some len)) (body_len (Ok Page.Push) (Some len)) begun.now
        (S.left source.old) (S.left source.new) result }
    ensures front { HasFront (S.left source.old) (S.left source.new) }
    ensures cause { HasCause is_link_fault (S.faults source.old) (S.faults source.new) (asked_as result) }
{
    if len > LARGEST_BODY {
        return Asked::Refused {
            why: Refusal::TooLarge { length: len },
        };
    }
    match read_body(alloc, source, begun, len as usize) {
        Ok(body) => Asked::Push { body },
        Err(BodyFault::Cut) => Asked::Refused {
            why: Refusal::BadRequest,
        },
        Err(BodyFault::Failed) => Asked::LinkFailed,
        Err(BodyFault::Memory) => Asked::Memory,
    }
}

// What is asked of a page, of which the body has this length where one is said.
fn ask_page<S: Source>(
    alloc: Global,
    source: &mut S,
    page: Page,
    target: &[u8],
    said: Option<u64>,
    begun: &[u8],
) -> Asked
    ensures asked { IsUnread result ⊎ Behind (page_asked page target.now said) (body_len (Ok page) said) begun.now
        (S.left source.old) (S.left source.new) result }
    ensures front { HasFront (S.left source.old) (S.left source.new) }
    ensures cause { HasCause is_link_fault (S.faults source.old) (S.faults source.new) (asked_as result) }
{
    match page {
        Page::Tip => Asked::Tip,
        Page::Stream => Asked::Stream,
        Page::Verify => ask_verdict(alloc, name_of(target)),
        Page::Push => {
            let Some(len) = said else {
                return Asked::Refused {
                    why: Refusal::LengthRequired,
                };
            };
            ask_push(alloc, source, len, begun)
        }
    }
}

/// What is asked by a head that stands in front of bytes, with its parts at these places. The body of a push is read.
pub(crate) fn ask<S: Source>(
    alloc: Global,
    source: &mut S,
    bytes: &[u8],
    fields: &[HeaderSpan],
    spans: RequestSpans,
) -> Asked
    requires { IsHeadAt bytes.now fields.now spans }
    ensures asked { IsUnread result ⊎ Reads bytes.now (S.left source.old) (S.left source.new) result }
    ensures front { HasFront (S.left source.old) (S.left source.new) }
    ensures cause { HasCause is_link_fault (S.faults source.old) (S.faults source.new) (asked_as result) }
{
    let (fields, _) = fields.split_at(spans.headers);
    let (_, begun) = bytes.split_at(spans.len);
    let method = part_at(bytes, spans.method);
    let target = part_at(bytes, spans.path);
    match said_length(bytes, fields) {
        Ok(said) => match find_allowed(alloc, method, target) {
            Choice::Is(page) => ask_page(alloc, source, page, target, said, begun),
            Choice::No(why) => Asked::Refused { why },
            Choice::Memory => Asked::Memory,
        },
        Err(_) => Asked::Refused {
            why: Refusal::BadRequest,
        },
    }
}
