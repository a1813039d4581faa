//! A desk as a connection sees it.

ghost use Rattle.std.specs.Prelude.{ℕ, List, Result};
ghost use Rattle.desk_turns.specs.Seats.{IsIdle, Sitting, TurnId};
ghost use Rattle.pushes.specs.declared.replies.Reply.{Reply};
ghost use Rattle.desk_http.specs.declared.serving_desks.Pushed.{Pushed};

use desk_turns::Seat;
use git_object::{ObjectId, RefName};
use octets::Octets;
use pushes::Reply;
use std::alloc::Global;
use std::sync::Wait;

/// What a push is answered.
#[derive(Debug, PartialEq, Eq, Drop)]
pub enum Pushed {
    /// By the desk.
    Replied { reply: Reply },
    /// Its entry would be unlawful; this line says why, with its line feed.
    Denied { line: Octets },
}

/// What requests ask of a desk. What each answer means, and what it does to the seat of who asks, is the desk's own.
/// Each call may wait for the turn, which the seat neither holds before nor after.
pub trait Serves {
    /// Of which turn its seats are.
    ghost turn: { Self → TurnId };

    /// Whether this is what a push of these bytes is answered, between these views of the seat.
    ghost pushes: { Self → List ℕ → Sitting → Sitting → Pushed → Type 0 };

    /// Whether this is how many entries there are and the id of the last, or why that is not told.
    ghost tells_tip: { Self → Sitting → Sitting → Result (ℕ × List ℕ) Reply → Type 0 };

    /// Whether this is the line of the verdict on the reference of this name, or why there is none.
    ghost judges: { Self → List ℕ → Sitting → Sitting → Result (List ℕ) Reply → Type 0 };

    /// Whether this is the text of the whole repository, or why there is none.
    ghost streams: { Self → Sitting → Sitting → Result (List ℕ) Reply → Type 0 };

    /// Takes a push, or answers why not.
    fn push<W: Wait>(&self, rt: &W, alloc: Global, seat: &mut Seat, text: Octets) -> Pushed
        requires { IsIdle (turn self.now) seat.old }
        ensures answer { pushes self.now text seat.old seat.new result }
        ensures idle { IsIdle (turn self.now) seat.new };

    /// How many entries there are, and the id of the last.
    fn tip<W: Wait>(&self, rt: &W, alloc: Global, seat: &mut Seat) -> Result<(u64, ObjectId), Reply>
        requires { IsIdle (turn self.now) seat.old }
        ensures answer { tells_tip self.now seat.old seat.new result }
        ensures idle { IsIdle (turn self.now) seat.new };

    /// The line of the verdict on a reference.
    fn verdict<W: Wait>(
        &self,
        rt: &W,
        alloc: Global,
        seat: &mut Seat,
        name: &RefName,
    ) -> Result<Octets, Reply>
        requires { IsIdle (turn self.now) seat.old }
        ensures answer { judges self.now name.now seat.old seat.new result }
        ensures idle { IsIdle (turn self.now) seat.new };

    /// The text of the whole repository.
    fn stream<W: Wait>(&self, rt: &W, alloc: Global, seat: &mut Seat) -> Result<Octets, Reply>
        requires { IsIdle (turn self.now) seat.old }
        ensures answer { streams self.now seat.old seat.new result }
        ensures idle { IsIdle (turn self.now) seat.new };
}
