//! The desk.

ghost use Rattle.std.specs.Prelude.{◌≡◌, ◌<◌, true, IfOk, All, length};
ghost use Rattle.desk_turns.specs.Histories.{History, IsAtStart, count};
ghost use Rattle.desk_turns.specs.Seats.{AreNew, IsIdle, Joined, SeesMore};

use crate::{DeskShop, Seat, Turn};
use octets::Memory;
use std::alloc::Global;
use std::marker::Model;

/// A shop that many callers ask, each with a seat, one after another. Threads share it by reference.
#[derive(Drop)]
pub struct Desk<S: DeskShop> {
    pub(crate) turn: Turn<S>,
}

impl<S: DeskShop> Model for Desk<S> {
    ghost use Rattle.desk_turns.specs.Seats.{TurnId, turn_id_coded};

    ghost Value = { TurnId };

    ghost coded = { turn_id_coded };

    ghost view = { λ d. d.turn };
}

impl<S: DeskShop + Drop> Desk<S> {
    /// A desk with this shop, and its seats, numbered from 1 in order. The shop stands for a history of nobody's
    /// entries, as one whose state was just loaded.
    pub fn new(alloc: Global, shop: S, seats: u32) -> Result<(Desk<S>, Vec<Seat>), Memory>
        requires seats { 0 < seats }
        requires stands { (history : History) × S.stands shop history × IsAtStart history }
        ensures count { IfOk result (λ given. length given.1.items ≡ seats) }
        ensures seats { IfOk result (λ given. AreNew S.is_legal given.0 given.1.items) }
        ensures idle { IfOk result (λ given. All (IsIdle given.0) given.1.items) }
    {
        match Turn::new(alloc, shop, seats) {
            Ok((turn, given)) => Ok((Desk { turn }, given)),
            Err(error) => Err(error),
        }
    }

    /// How many entries there are by now. One load, which waits for nobody.
    pub fn count(&self, seat: &mut Seat) -> u64
        requires turn { seat.old.turn ≡ self.now }
        ensures length { result ≡ count seat.new.seen }
        ensures seat { SeesMore S.is_legal seat.old seat.new }
        ensures held { seat.old.holds ≡ true → seat.new.seen ≡ seat.old.seen }
    {
        self.turn.count(seat)
    }

    /// Joins a seat to another, which then has seen what either has. It does not wait.
    pub fn join(&self, into: &mut Seat, from: Seat)
        requires into { IsIdle self.now into.old }
        requires from { IsIdle self.now from }
        ensures seat { Joined S.is_legal into.old from into.new }
    {
        self.turn.join(into, from);
    }
}
