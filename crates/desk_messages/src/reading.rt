//! A request, read from a source.

ghost use Rattle.std.specs.Prelude.{◌≡◌, ◌⊎◌, IfSome, []};
ghost use Rattle.octets.specs.Causes.{HasCause};
ghost use Rattle.desk_messages.specs.Asking.{Asks};
ghost use Rattle.desk_messages.specs.Reading.{HasFront, IsUnread, Reads, asked_as, is_link_fault};

use crate::answering::ask;
use crate::heads::{LARGEST_HEAD, MOST_FIELDS, read_head};
use crate::{Asked, Refusal};
use edge_io::Source;
use httparse::spans::EMPTY_HEADER_SPAN;
use std::alloc::Global;

// Reads one request.
fn read_asked<S: Source>(alloc: Global, source: &mut S) -> Asked
    ensures asked { IsUnread result ⊎ Reads [] (S.left source.old) (S.left source.new) result }
    ensures front { HasFront (S.left source.old) (S.left source.new) }
    ensures cause { HasCause is_link_fault (S.faults source.old) (S.faults source.new) (asked_as result) }
{
    let mut bytes = [0; LARGEST_HEAD];
    let mut fields = [EMPTY_HEADER_SPAN; MOST_FIELDS];
    let Ok(found) = read_head(source, &mut bytes, &mut fields) else {
        return Asked::LinkFailed;
    };
    let (read, _) = bytes.split_at(found.0);
    match found.1 {
        Some(spans) => ask(alloc, source, read, &fields, spans),
        None => {
            if found.0 == 0 {
                return Asked::Silent;
            }
            Asked::Refused {
                why: Refusal::BadRequest,
            }
        }
    }
}

/// Reads one request, and answers what its bytes ask. Reading stops where the input ends, where no head of at most
/// 16,384 bytes and 64 fields can come any more, or where the head and the body of a push have come; nothing that
/// follows would change the answer. `Silent` comes exactly where the input ends before its first byte, and `LinkFailed`
/// exactly where the source counted a fault.
pub fn read_request<S: Source>(alloc: Global, source: &mut S) -> Asked
    ensures asked { IsUnread result ⊎ Reads [] (S.left source.old) (S.left source.new) result }
    ensures whole { IsUnread result ⊎ IfSome (S.left source.old) (λ bytes. Asks bytes result) }
    ensures front { HasFront (S.left source.old) (S.left source.new) }
    ensures cause { HasCause is_link_fault (S.faults source.old) (S.faults source.new) (asked_as result) }
{
    read_asked(alloc, source)
}
