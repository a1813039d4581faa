//! Taking the turn with nothing in doubt.

ghost use Rattle.std.specs.Prelude.{◌≡◌, ◌<◌, IfErr, IfNone, IfOk, IfSome, OnErr};
ghost use Rattle.desk_turns.specs.Seats.{IsIdle};
ghost use Rattle.desk_turns.specs.Calls.{Enters, IsUnsettled, OnlySees};

use crate::{Desk, DeskShop, Seat, Settled};
use pushes::Reply;
use std::alloc::Global;
use std::sync::Wait;

impl<S: DeskShop + Drop> Desk<S> {
    // Takes the turn and settles a doubt. Where the entry in doubt is taken in, the turn is given back with it: None.
    fn try_enter<W: Wait>(&self, rt: &W, alloc: Global, seat: &mut Seat) -> Result<Option<S>, Reply>
        requires idle { IsIdle self.now seat.old }
        requires number { 0 < seat.old.number }
        ensures entered { IfOk result (λ found. IfSome found
            (λ shop. Enters S.stands S.in_doubt S.counted shop seat.old seat.new)) }
        ensures again { IfOk result (λ found. IfNone found (OnlySees S.is_legal seat.old seat.new)) }
        ensures unsettled { IfErr result (λ reply. IsUnsettled S.stands S.told reply seat.old seat.new) }
        ensures left { OnErr result (OnlySees S.is_legal seat.old seat.new) }
    {
        let mut shop = self.turn.take(rt, seat);
        match shop.settle(alloc) {
            Settled::Clear => Ok(Some(shop)),
            Settled::TookIn { id: _ } => {
                self.turn.leave_with(seat, shop);
                Ok(None)
            }
            Settled::Moved { found, expected } => {
                self.turn.leave(seat, shop);
                Err(Reply::Moved { found, expected })
            }
            Settled::Fault => {
                self.turn.leave(seat, shop);
                Err(Reply::Fault)
            }
            Settled::Memory => {
                self.turn.leave(seat, shop);
                Err(Reply::Memory)
            }
        }
    }

    /// Waits for the turn, and takes it once nothing is in doubt.
    #[tactic(auto, using(crate::proofs::Looks::itself, crate::proofs::Looks::through, crate::proofs::Looks::entered, crate::proofs::Looks::unsettled))]
    pub(crate) fn enter<W: Wait>(&self, rt: &W, alloc: Global, seat: &mut Seat) -> Result<S, Reply>
        requires idle { IsIdle self.now seat.old }
        ensures entered { IfOk result (λ shop. Enters S.stands S.in_doubt S.counted shop seat.old seat.new) }
        ensures unsettled { IfErr result (λ reply. IsUnsettled S.stands S.told reply seat.old seat.new) }
        ensures left { OnErr result (OnlySees S.is_legal seat.old seat.new) }
    {
        // Seats count from 1, which the number alone does not show.
        if seat.number() == 0 {
            return Err(Reply::Memory);
        }
        for _ in rt.forever() {
            match self.try_enter(rt, alloc, seat) {
                Ok(Some(shop)) => return Ok(shop),
                Ok(None) => {}
                Err(reply) => return Err(reply),
            }
        }
        unreachable!()
    }
}
