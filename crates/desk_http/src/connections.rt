//! A connection: one request, and its reply.

ghost use Rattle.std.specs.Prelude.{◌≡◌};
ghost use Rattle.desk_turns.specs.Seats.{IsIdle};
ghost use Rattle.desk_http.specs.Connections.{Ends};

use crate::answering::answer;
use crate::{Gate, Point, Serves};
use desk_messages::read_request;
use desk_turns::Seat;
use edge_io::{Sink, Source};
use links::Link;
use std::alloc::Global;
use std::sync::Wait;

/// How a connection ended.
#[derive(Clone, Copy, Debug, PartialEq, Eq, Drop)]
pub enum End {
    /// The reply of this code went out whole.
    Replied(u16),
    /// The input ended before its first byte. Nothing was written.
    Silent,
    /// The link failed. A front of the reply went out, or nothing.
    LinkFailed,
}

/// Reads one request, passes the gate, writes the reply to it, and passes the gate again. The reply is what the desk
/// answers between the views that the seat has before and after. `LinkFailed` comes exactly where the link counted a
/// fault.
pub fn serve_connection<D: Serves, S: Source, K: Sink, G: Gate, W: Wait>(
    rt: &W,
    alloc: Global,
    desk: &D,
    seat: &mut Seat,
    link: &mut Link<S, K>,
    gate: &G,
) -> End
    requires { IsIdle (D.turn desk.now) seat.old }
    ensures ends { Ends D.Serves S.Source K.Sink desk.now seat.old seat.new link.old link.new result }
    ensures idle { IsIdle (D.turn desk.now) seat.new }
{
    let number = seat.number();
    let asked = read_request(alloc, &mut link.source);
    gate.pass(rt, number, Point::Read);
    let end = answer(rt, alloc, desk, seat, asked, &mut link.sink);
    gate.pass(rt, number, Point::Answered);
    end
}
