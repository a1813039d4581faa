//! What a request is answered.

ghost use Rattle.std.specs.Prelude.{◌≡◌};
ghost use Rattle.desk_turns.specs.Seats.{IsIdle};
ghost use Rattle.desk_http.specs.Connections.{Answered};

use crate::telling::{tell_pushed, tell_refusal, tell_reply, tell_text, tell_tip};
use crate::{End, Serves};
use desk_messages::Asked;
use desk_turns::Seat;
use edge_io::Sink;
use pushes::Reply;
use std::alloc::Global;
use std::sync::Wait;

/// Asks the desk what is asked of it, and writes the reply. Nothing is written where nothing was asked, or the source
/// failed.
pub(crate) fn answer<D: Serves, K: Sink, W: Wait>(
    rt: &W,
    alloc: Global,
    desk: &D,
    seat: &mut Seat,
    asked: Asked,
    sink: &mut K,
) -> End
    requires { IsIdle (D.turn desk.now) seat.old }
    ensures answered { Answered D.Serves K.Sink desk.now asked seat.old seat.new sink.old sink.new result }
    ensures idle { IsIdle (D.turn desk.now) seat.new }
{
    match asked {
        Asked::Tip => tell_tip(sink, &desk.tip(rt, alloc, seat)),
        Asked::Verify { name } => tell_text(sink, &desk.verdict(rt, alloc, seat, &name)),
        Asked::Stream => tell_text(sink, &desk.stream(rt, alloc, seat)),
        Asked::Push { body } => tell_pushed(sink, &desk.push(rt, alloc, seat, body)),
        Asked::Refused { why } => tell_refusal(sink, &why),
        Asked::Memory => tell_reply(sink, &Reply::Memory),
        Asked::Silent => End::Silent,
        Asked::LinkFailed => End::LinkFailed,
    }
}
