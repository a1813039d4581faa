//! What a desk is asked that changes nothing.

ghost use Rattle.std.specs.Prelude.{◌≡◌};
ghost use Rattle.desk_turns.specs.Seats.{IsIdle};
ghost use Rattle.desk_turns.specs.Calls.{GivesVerdict, OnlySees, Streams, TellsTip};

use crate::{Desk, DeskShop, Seat};
use git_object::{ObjectId, RefName};
use keeper_api::KeeperFault;
use octets::Octets;
use pushes::Reply;
use std::alloc::Global;
use std::sync::Wait;

impl<S: DeskShop + Drop> Desk<S> {
    /// How many entries there are, and the id of the last, or zeros. `Moved`, `Fault` and `Memory` come where a doubt
    /// stays.
    pub fn tip<W: Wait>(
        &self,
        rt: &W,
        alloc: Global,
        seat: &mut Seat,
    ) -> Result<(u64, ObjectId), Reply>
        requires idle { IsIdle self.now seat.old }
        ensures idle { IsIdle self.now seat.new }
        ensures seat { OnlySees S.is_legal seat.old seat.new }
        ensures answer { TellsTip S.stands S.told result seat.old seat.new }
    {
        let shop = match self.enter(rt, alloc, seat) {
            Ok(shop) => shop,
            Err(reply) => return Err(reply),
        };
        let tip = shop.tip();
        self.turn.leave(seat, shop);
        Ok(tip)
    }

    /// What is said of a reference by all entries that the seat then has seen. `Moved` comes where a doubt stays,
    /// `Fault` where the store failed.
    pub fn verdict<W: Wait>(
        &self,
        rt: &W,
        alloc: Global,
        seat: &mut Seat,
        name: &RefName,
    ) -> Result<S::Judged, Reply>
        requires idle { IsIdle self.now seat.old }
        ensures idle { IsIdle self.now seat.new }
        ensures seat { OnlySees S.is_legal seat.old seat.new }
        ensures answer { GivesVerdict S.stands S.told S.judges name.now result seat.old seat.new }
    {
        let mut shop = match self.enter(rt, alloc, seat) {
            Ok(shop) => shop,
            Err(reply) => return Err(reply),
        };
        let found = shop.verdict(alloc, name);
        self.turn.leave(seat, shop);
        match found {
            Ok(verdict) => Ok(verdict),
            Err(KeeperFault::Failed) => Err(Reply::Fault),
            Err(KeeperFault::Memory) => Err(Reply::Memory),
        }
    }

    /// The whole repository as one text, by all entries that the seat then has seen. `Moved` comes where a doubt stays,
    /// `Fault` where the store failed, and else what the shop says of a repository that has no such text.
    #[tactic(auto, using(crate::proofs::Streamed::streamed))]
    pub fn stream<W: Wait>(&self, rt: &W, alloc: Global, seat: &mut Seat) -> Result<Octets, Reply>
        requires idle { IsIdle self.now seat.old }
        ensures idle { IsIdle self.now seat.new }
        ensures seat { OnlySees S.is_legal seat.old seat.new }
        ensures answer { Streams S.stands S.told S.streams result seat.old seat.new }
    {
        let mut shop = match self.enter(rt, alloc, seat) {
            Ok(shop) => shop,
            Err(reply) => return Err(reply),
        };
        let text = shop.stream(alloc);
        self.turn.leave(seat, shop);
        text
    }
}
