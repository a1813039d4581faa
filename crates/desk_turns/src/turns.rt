//! The turn.

ghost use Rattle.std.specs.Prelude.{◌≡◌, ◌+◌, ◌^◌, ◌<◌, ◌≤◌, true, false, IfOk, All, length};
ghost use Rattle.desk_turns.specs.Histories.{History, Member, count, with_member, IsTaggedFor, IsAtStart};
ghost use Rattle.desk_turns.specs.Seats.{IsIdle, AreNew, SeesMore, TakesTurn, LeavesWithOne, Joined, given_back};

use crate::chronicles::Chronicle;
use crate::plays::{Looking, Merging};
use crate::rule::{Board, Telling};
use crate::seating::{first_look, last_seat, next_seat, open};
use crate::seats::Seat;
use crate::steps::{give_back, give_back_with, lift, take_turn};
use crate::waiting::Sleepers;
use octets::Memory;
use std::alloc::Global;
use std::marker::Model;
use std::sync::Wait;

/// A state that one seat at a time takes out and gives back. Threads share it by reference.
#[derive(Drop)]
pub struct Turn<S: Chronicle> {
    board: Board<S>,
    sleepers: Sleepers,
}

impl<S: Chronicle> Model for Turn<S> {
    ghost use Rattle.std.specs.Prelude.{◌≡◌};
    ghost use Rattle.desk_turns.specs.Seats.{TurnId, turn_id_coded};

    ghost Value = { TurnId };

    ghost coded = { turn_id_coded };

    ghost view = { λ t. t.board.shared.table_id };

    ghost invariant = { λ t. t.board.shared.table_id.words ≡ 2 };
}

impl<S: Chronicle + Drop> Turn<S> {
    /// A turn with this state, and its seats, numbered from 1 in order. The state stands for a history of fewer than
    /// 2^62 members, of which no seat added any. This is the one call that takes memory.
    pub fn new(alloc: Global, state: S, seats: u32) -> Result<(Turn<S>, Vec<Seat>), Memory>
        requires seats { 0 < seats }
        requires stands { (history : History) × S.stands state history × IsAtStart history }
        ensures count { IfOk result (λ given. length given.1.items ≡ seats) }
        ensures seats { IfOk result (λ given. AreNew S.is_legal given.0 given.1.items) }
        ensures idle { IfOk result (λ given. All (IsIdle given.0) given.1.items) }
    {
        let (board, mut token) = open(alloc, state)?;
        first_look(&board, &mut token);
        let mut given = Vec::new(alloc);
        'seats: for number in 1..seats {
            let seat = next_seat(&board, &mut token, number);
            given.push(seat)?;
        }
        let seat = last_seat(token, seats);
        given.push(seat)?;
        let sleepers = Sleepers::none();
        Ok((Turn { board, sleepers }, given))
    }

    /// Waits for the turn, and takes it: the state that stands for all that was done until then. The seat may not
    /// hold the turn already.
    pub fn take<R: Wait>(&self, rt: &R, seat: &mut Seat) -> S
        requires turn { seat.old.turn ≡ self.now }
        requires idle { seat.old.holds ≡ false }
        ensures stands { S.stands result seat.new.seen }
        ensures legal { S.is_legal seat.new.seen }
        ensures room { count seat.new.seen < 2 ^ 62 }
        ensures seat { TakesTurn (S.counted result) seat.old seat.new }
    {
        let mut token = lift(&mut seat.badge);
        let state = take_turn(rt, &self.board, &self.sleepers, &mut token);
        seat.badge = token.into_badge();
        state
    }

    /// Gives the turn back with a state that stands for the history that was taken and one member more, which is the
    /// seat's or nobody's. The history then has fewer than 2^62 members, and the faults have not fallen. What the
    /// faults rose by in the turn is added to the seat's own count. It does not wait, and takes no memory.
    pub fn leave_with(&self, seat: &mut Seat, state: S)
        requires turn { seat.old.turn ≡ self.now }
        requires holds { seat.old.holds ≡ true }
        requires member { (member : Member) × S.stands state (with_member seat.old.seen member)
            × IsTaggedFor seat.old.number member }
        requires room { count seat.old.seen + 1 < 2 ^ 62 }
        requires faults { seat.old.faults ≤ S.counted state }
        ensures seat { LeavesWithOne S.stands S.counted state seat.old seat.new }
        ensures legal { S.is_legal seat.new.seen }
    {
        let mut token = lift(&mut seat.badge);
        give_back_with(&self.board, &mut token, state);
        seat.badge = token.into_badge();
        self.sleepers.wake(&self.board);
    }

    /// Gives the turn back with a state that stands for the history that was taken, and whose faults have not fallen.
    /// What they rose by in the turn is added to the seat's own count. It does not wait, and takes no memory.
    pub fn leave(&self, seat: &mut Seat, state: S)
        requires turn { seat.old.turn ≡ self.now }
        requires holds { seat.old.holds ≡ true }
        requires stands { S.stands state seat.old.seen }
        requires room { count seat.old.seen < 2 ^ 62 }
        requires faults { seat.old.faults ≤ S.counted state }
        ensures seat { seat.new ≡ given_back (S.counted state) seat.old.seen seat.old }
        ensures legal { S.is_legal seat.new.seen }
    {
        let mut token = lift(&mut seat.badge);
        give_back(&self.board, &mut token, state);
        seat.badge = token.into_badge();
        self.sleepers.wake(&self.board);
    }

    /// How many members the history has by now. One load, which waits for nobody: not for the seat that holds the
    /// turn either.
    pub fn count(&self, seat: &mut Seat) -> u64
        requires turn { seat.old.turn ≡ self.now }
        ensures length { result ≡ count seat.new.seen }
        ensures seat { SeesMore S.is_legal seat.old seat.new }
        ensures held { seat.old.holds ≡ true → seat.new.seen ≡ seat.old.seen }
    {
        let mut token = lift(&mut seat.badge);
        let found = self.board.shared.load::<Looking<S>>(&mut token, 0);
        seat.badge = token.into_badge();
        found / 2
    }

    /// Joins a seat to another, which then has seen what either has. Neither holds the turn. It does not wait.
    pub fn join(&self, into: &mut Seat, from: Seat)
        requires turn { (into.old.turn ≡ self.now) × (from.turn ≡ self.now) }
        requires idle { (into.old.holds ≡ false) × (from.holds ≡ false) }
        ensures seat { Joined S.is_legal into.old from into.new }
    {
        let mut token = lift(&mut into.badge);
        let Seat {
            number: _,
            mut badge,
        } = from;
        let other = lift(&mut badge);
        self.board.shared.join_seat::<Telling>(&mut token, other);
        self.board.shared.load::<Merging<S>>(&mut token, 0);
        into.badge = token.into_badge();
    }
}
