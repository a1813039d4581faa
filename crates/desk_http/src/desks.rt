//! Desks, as connections ask them.

ghost use Rattle.std.specs.Prelude.{◌≡◌, ◌<◌, IfOk, All, length};
ghost use Rattle.desk_turns.specs.Histories.{History, IsAtStart};
ghost use Rattle.desk_turns.specs.Seats.{AreNew, IsIdle};

use crate::HttpShop;
use desk_turns::{Desk, Seat};
use octets::Memory;
use std::alloc::Global;
use std::marker::Model;

/// A desk over a shop, as the connections of its workers ask it.
#[derive(Drop)]
pub struct HttpDesk<S: HttpShop> {
    pub(crate) desk: Desk<S>,
}

impl<S: HttpShop> Model for HttpDesk<S> {
    ghost use Rattle.desk_turns.specs.Seats.{TurnId, turn_id_coded};

    ghost Value = { TurnId };

    ghost coded = { turn_id_coded };

    ghost view = { λ d. d.desk };
}

impl<S: HttpShop + Drop> HttpDesk<S> {
    /// A desk with this shop, which stands for a history of nobody's entries, and its seats.
    pub(crate) fn new(
        alloc: Global,
        shop: S,
        seats: u32,
    ) -> Result<(HttpDesk<S>, Vec<Seat>), Memory>
        requires some { 0 < seats }
        requires stands { (history : History) × S.stands shop history × IsAtStart history }
        ensures count { IfOk result (λ given. length given.1.items ≡ seats) }
        ensures seats { IfOk result (λ given. AreNew S.is_legal given.0 given.1.items) }
        ensures idle { IfOk result (λ given. All (IsIdle given.0) given.1.items) }
    {
        match Desk::new(alloc, shop, seats) {
            Ok((desk, given)) => Ok((HttpDesk { desk }, given)),
            Err(error) => Err(error),
        }
    }
}
