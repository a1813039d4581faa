//! Pushes.

ghost use Rattle.std.specs.Prelude.{◌≡◌};
ghost use Rattle.pushes.specs.Pushes.{IsSpelled};
ghost use Rattle.desk_turns.specs.Seats.{IsIdle};
ghost use Rattle.desk_turns.specs.Calls.{AnswersPush, Pushes, Returns, reply_of};

use crate::{Desk, DeskShop, Seat};
use octets::Octets;
use pushes::{Push, PushFault, Reply, read_push};
use std::alloc::Global;
use std::sync::Wait;

// The reply to a body that is no push.
fn reply_of(fault: PushFault) -> Reply
    ensures { result ≡ reply_of fault }
{
    match fault {
        PushFault::Malformed { at } => Reply::Malformed { at },
        PushFault::TooLarge { length } => Reply::TooLarge { length },
        PushFault::Memory => Reply::Memory,
    }
}

impl<S: DeskShop + Drop> Desk<S> {
    // Answers a push that was read.
    fn push_read<W: Wait>(&self, rt: &W, alloc: Global, seat: &mut Seat, push: &Push) -> S::Answer
        requires idle { IsIdle self.now seat.old }
        requires spelled { IsSpelled push.now }
        ensures seat { Returns S.is_legal seat.old seat.new }
        ensures answer { AnswersPush S.stands S.told S.answers S.is_done S.is_fault S.plain push.now result seat.old
            seat.new }
    {
        let mut shop = match self.enter(rt, alloc, seat) {
            Ok(shop) => shop,
            Err(reply) => return S::plain(reply),
        };
        let answer = shop.push(alloc, seat.number(), push);
        if S::is_done(&answer) {
            self.turn.leave_with(seat, shop);
        } else {
            self.turn.leave(seat, shop);
        }
        answer
    }

    /// Answers a push's text. The text is read first, and one that is no push is answered without a turn: `Malformed`
    /// and `TooLarge` come as of `read_push`. Then a doubt is settled, and where it stays nothing is asked. What else
    /// is answered, is answered in the turn in which the entry is added.
    pub fn push<W: Wait>(&self, rt: &W, alloc: Global, seat: &mut Seat, text: Octets) -> S::Answer
        requires idle { IsIdle self.now seat.old }
        ensures idle { IsIdle self.now seat.new }
        ensures seat { Returns S.is_legal seat.old seat.new }
        ensures answer { Pushes S.stands S.told S.answers S.is_done S.is_fault S.plain text result seat.old
            seat.new }
    {
        match read_push(alloc, text) {
            Ok(push) => self.push_read(rt, alloc, seat, &push),
            Err(fault) => S::plain(reply_of(fault)),
        }
    }
}
