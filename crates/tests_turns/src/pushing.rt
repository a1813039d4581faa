//! A push, by any caller.

ghost use Rattle.std.specs.Prelude.{ℕ, Option};
ghost use Rattle.desk_turns.specs.Seats.{IsIdle};
ghost use Rattle.tests_turns.specs.Pushes.{IsPushed, OnlySees};

use crate::shops::{Refusal, Shop};
use desk_turns::{Seat, Turn};
use git_object::ObjectId;
use keeper_api::Keeper;
use std::alloc::Global;
use std::sync::Wait;

/// Waits for the turn, adds an entry after the one of this number, or after any, and gives the turn back. `Stale` comes
/// exactly where that is not the number of all entries.
pub fn push<R: Keeper + Drop, W: Wait>(
    rt: &W,
    alloc: Global,
    turn: &Turn<Shop<R>>,
    seat: &mut Seat,
    after: Option<u64>,
    id: &ObjectId,
) -> Result<u64, Refusal>
    requires { IsIdle turn.now seat.old }
    ensures pushed { IsPushed after id.now result seat.old seat.new }
    ensures idle { IsIdle turn.now seat.new }
{
    let mut shop = turn.take(rt, seat);
    match shop.step(alloc, seat.number(), after, id) {
        Ok(number) => {
            turn.leave_with(seat, shop);
            Ok(number)
        }
        Err(refusal) => {
            turn.leave(seat, shop);
            Err(refusal)
        }
    }
}

// The number of all entries by now, where it is asked for.
fn looked<R: Keeper + Drop>(turn: &Turn<Shop<R>>, seat: &mut Seat, looks: bool) -> Option<u64>
    requires { IsIdle turn.now seat.old }
    ensures sees { OnlySees seat.old seat.new }
    ensures idle { IsIdle turn.now seat.new }
{
    if looks { Some(turn.count(seat)) } else { None }
}

/// Pushes an entry after any, or after what a look without the turn finds to be the last.
pub fn push_as<R: Keeper + Drop, W: Wait>(
    rt: &W,
    alloc: Global,
    turn: &Turn<Shop<R>>,
    seat: &mut Seat,
    looks: bool,
    id: &ObjectId,
) -> Result<u64, Refusal>
    requires { IsIdle turn.now seat.old }
    ensures pushed { (after : Option ℕ) × IsPushed after id.now result seat.old seat.new }
    ensures idle { IsIdle turn.now seat.new }
{
    let after = looked(turn, seat, looks);
    push(rt, alloc, turn, seat, after, id)
}
