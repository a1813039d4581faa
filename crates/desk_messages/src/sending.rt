//! The request of a push, sent.

ghost use Rattle.std.specs.Prelude.{◌≡◌, ◌≤◌, ◌++◌, length, OnErr, OnOk};
ghost use Rattle.octets.specs.Causes.{HasCause, each};
ghost use Rattle.octets.specs.Content.{GainsPart, with_end};
ghost use Rattle.desk_messages.specs.Requests.{request_head, request_text};

use buffered_reader::Line;
use edge_io::Failed;
use itoa::Buffer;
use links::Peer;

// Writes all bytes, in as many pieces as the peer takes.
fn send_all<P: Peer>(peer: &mut P, bytes: &[u8]) -> Result<(), Failed>
    ensures whole { OnOk result (P.given peer.new ≡ with_end (P.given peer.old) bytes.now) }
    ensures part { OnErr result (GainsPart (P.given peer.old) (P.given peer.new) bytes.now) }
    ensures unread { P.left peer.new ≡ P.left peer.old }
    ensures port { P.connected peer.new ≡ P.connected peer.old }
    ensures cause { HasCause each (P.faults peer.old) (P.faults peer.new) result }
{
    let mut rest = bytes;
    'pieces: while !rest.is_empty() {
        let count = peer.write(rest)?;
        let (_, after) = rest.split_at(count);
        rest = after;
    }
    Ok(())
}

// The head of a request whose body has this length.
fn request_head(len: usize) -> Line
    ensures text { result ≡ request_head len }
    ensures short { length result ≤ 120 }
{
    let mut digits = Buffer::new();
    let mut head = Line::new();
    head.append(b"POST /v1/push HTTP/1.1\r\nhost: localhost\r\ncontent-length: ");
    head.append(digits.format(len).as_bytes());
    head.append(b"\r\n\r\n");
    head
}

/// Sends the request of a push of which this is the text. After `Failed`, which comes exactly where the peer counted a
/// fault, a front of it went out, and not all. It takes no memory.
pub fn send_push<P: Peer>(peer: &mut P, push: &[u8]) -> Result<(), Failed>
    ensures whole { OnOk result (P.given peer.new ≡ with_end (P.given peer.old) (request_text push.now)) }
    ensures part { OnErr result (GainsPart (P.given peer.old) (P.given peer.new) (request_text push.now)) }
    ensures unread { P.left peer.new ≡ P.left peer.old }
    ensures port { P.connected peer.new ≡ P.connected peer.old }
    ensures cause { HasCause each (P.faults peer.old) (P.faults peer.new) result }
{
    let head = request_head(push.len());
    send_all(peer, head.as_slice())?;
    send_all(peer, push)
}
