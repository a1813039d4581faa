//! A desk that is asked to take a push.

ghost use Rattle.std.specs.Prelude.{◌≡◌, IfOk, IfSome, OnErr, OnOk, length};
ghost use Rattle.octets.specs.Causes.{HasCause, each};
ghost use Rattle.desk_messages.specs.Reading.{HasFront};
ghost use Rattle.desk_messages.specs.ClientAsking.{HasAsked, HasStopped, most_read};

use crate::receiving::receive;
use crate::replies::{BadReply, read_reply};
use crate::sending::send_push;
use edge_io::Failed;
use links::Peer;

/// What a desk answered.
#[derive(Clone, Copy, Debug)]
pub enum Answer<'b> {
    /// A reply with this code and this body.
    Reply { code: u16, body: &'b [u8] },
    /// What came is no reply.
    Bad { why: BadReply },
}

/// Asks the desk at a port to take the push of which this is the text: it connects, sends the request, reads to the end
/// of what comes or as far as the buffer goes, and reads the reply from that. `Failed` comes exactly where the peer
/// counted a fault: a front of the request was given to the peer then and nothing read of it, or all of it, and some of
/// what came was read. It takes no memory.
pub fn ask_desk<'b, P: Peer>(
    peer: &mut P,
    port: u16,
    push: &[u8],
    bytes: &'b mut [u8],
) -> Result<Answer<'b>, Failed>
    requires { length bytes.old ≡ most_read }
    ensures asked { IfOk result (HasAsked (P.given peer.old) (P.given peer.new) (P.left peer.old) (P.left peer.new)
        push.now) }
    ensures port { OnOk result (IfSome (P.connected peer.new) (λ at. at ≡ port)) }
    ensures front { OnErr result (HasFront (P.left peer.old) (P.left peer.new)) }
    ensures stopped { OnErr result (HasStopped (P.given peer.old) (P.given peer.new) (P.left peer.old) (P.left peer.new)
        push.now) }
    ensures cause { HasCause each (P.faults peer.old) (P.faults peer.new) result }
{
    peer.connect(port)?;
    send_push(peer, push)?;
    let len = receive(peer, bytes)?;
    let (come, _) = bytes.split_at(len);
    match read_reply(come) {
        Ok((code, body)) => Ok(Answer::Reply { code, body }),
        Err(why) => Ok(Answer::Bad { why }),
    }
}
