//! The command `push`.

ghost use Rattle.std.specs.Prelude.{◌≡◌};
ghost use Rattle.octets.specs.Causes.{HasCause};
ghost use Rattle.keeper_api.specs.Undisturbed.{Undisturbed};
ghost use Rattle.commands_desk.specs.Faults.{keeper_failed, peer_failed, sink_failed};
ghost use Rattle.commands_desk.specs.Pushing.{PushEnds, Sends, TellsAnswer, passed_by};

use crate::faults::PushFault;
use crate::preparing::prepare;
use crate::telling::{is_taken, print_answer};
use desk_messages::{Answer, MOST_READ, ask_desk};
use edge_io::{Failed, Sink};
use keeper_api::Keeper;
use links::Peer;
use std::alloc::Global;
use worlds::print_break;

// Prints an answer, and says whether the push was taken.
fn tell<K: Sink>(sink: &mut K, answer: &Answer<'_>) -> Result<(), PushFault>
    ensures tells { TellsAnswer answer.now (K.contents sink.old) (K.contents sink.new) result }
    ensures cause { HasCause sink_failed (K.faults sink.old) (K.faults sink.new) result }
{
    if print_answer(sink, answer).is_err() {
        return Err(PushFault::SinkFailed);
    }
    if is_taken(answer) {
        Ok(())
    } else {
        Err(PushFault::Desk)
    }
}

// Sends a push to the desk at a port, and prints what it answers.
fn send<K: Sink, P: Peer>(
    alloc: Global,
    port: u16,
    text: &[u8],
    sink: &mut K,
    peer: &mut P,
) -> Result<(), PushFault>
    ensures sends { Sends port text.now (passed_by (P.connected peer.old) (P.connected peer.new)
        (P.given peer.old) (P.given peer.new) (P.left peer.old) (P.left peer.new)
        (K.contents sink.old) (K.contents sink.new)) result }
    ensures sink { HasCause sink_failed (K.faults sink.old) (K.faults sink.new) result }
    ensures peer { HasCause peer_failed (P.faults peer.old) (P.faults peer.new) result }
{
    let Ok(mut bytes) = vec![in alloc; 0u8; MOST_READ] else {
        return Err(PushFault::Memory);
    };
    match ask_desk(peer, port, text, bytes.as_mut_slice()) {
        Ok(answer) => tell(sink, &answer),
        Err(Failed) => Err(PushFault::PeerFailed),
    }
}

/// Sends the entry of a number of the store's log to the desk at a port, with the objects that go with it, and prints
/// the body of its reply, or that it gave none. The store is as before.
pub fn push<K: Sink, R: Keeper, P: Peer>(
    alloc: Global,
    port: u16,
    number: u64,
    sink: &mut K,
    keeper: &mut R,
    peer: &mut P,
) -> Result<(), PushFault>
    ensures ends { PushEnds port number (R.content keeper.new) (passed_by (P.connected peer.old) (P.connected peer.new)
        (P.given peer.old) (P.given peer.new) (P.left peer.old) (P.left peer.new)
        (K.contents sink.old) (K.contents sink.new)) result }
    ensures same { Undisturbed R.Keeper keeper.old keeper.new }
    ensures sink { HasCause sink_failed (K.faults sink.old) (K.faults sink.new) result }
    ensures keeper { HasCause keeper_failed (R.faults keeper.old) (R.faults keeper.new) result }
    ensures peer { HasCause peer_failed (P.faults peer.old) (P.faults peer.new) result }
{
    let made = prepare(alloc, keeper, number);
    match &made {
        Ok(text) => send(alloc, port, text.as_slice(), sink, peer),
        Err(PushFault::LogBroken { id }) => match print_break(sink, id) {
            Ok(()) => Err(PushFault::LogBroken { id: *id }),
            Err(Failed) => Err(PushFault::SinkFailed),
        },
        Err(PushFault::NoEntry) => Err(PushFault::NoEntry),
        Err(PushFault::Missing { id }) => Err(PushFault::Missing { id: *id }),
        Err(PushFault::TooLarge) => Err(PushFault::TooLarge),
        Err(PushFault::Desk) => Err(PushFault::Desk),
        Err(PushFault::KeeperFailed) => Err(PushFault::KeeperFailed),
        Err(PushFault::PeerFailed) => Err(PushFault::PeerFailed),
        Err(PushFault::SinkFailed) => Err(PushFault::SinkFailed),
        Err(PushFault::Memory) => Err(PushFault::Memory),
    }
}
