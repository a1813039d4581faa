//! What a desk sends, received.

ghost use Rattle.std.specs.Prelude.{◌≡◌, ◌≤◌, ◌<◌, length, take, IfOk, OnErr};
ghost use Rattle.octets.specs.Causes.{HasCause, each};
ghost use Rattle.octets.specs.Content.{with_front};
ghost use Rattle.edge_io.specs.Read.{IsAtEnd};
ghost use Rattle.desk_messages.specs.Reading.{HasFront};

use edge_io::Failed;
use links::Peer;

/// Fills a buffer as far as bytes come, and answers how many did.
pub(crate) fn receive<P: Peer>(peer: &mut P, out: &mut [u8]) -> Result<usize, Failed>
    ensures within { IfOk result (λ len. len ≤ length out.new) }
    ensures room { length out.new ≡ length out.old }
    ensures read { IfOk result (λ len. P.left peer.old ≡ with_front (take len out.new) (P.left peer.new)) }
    ensures end { IfOk result (λ len. len < length out.new → IsAtEnd (P.left peer.new)) }
    ensures failed { OnErr result (HasFront (P.left peer.old) (P.left peer.new)) }
    ensures unwritten { P.given peer.new ≡ P.given peer.old }
    ensures port { P.connected peer.new ≡ P.connected peer.old }
    ensures cause { HasCause each (P.faults peer.old) (P.faults peer.new) result }
{
    let mut len = 0;
    'pieces: while len < out.len() {
        let (_, space) = out.split_at_mut(len);
        let count = peer.read(space)?;
        if count == 0 {
            return Ok(len);
        }
        len += count;
    }
    Ok(len)
}
