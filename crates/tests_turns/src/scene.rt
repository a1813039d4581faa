// A turn over an empty shop, for the tests.

ghost use Rattle.std.specs.Prelude.{◌<◌, All, IfOk};
ghost use Rattle.desk_turns.specs.Seats.{IsIdle};

use crate::{Logged, Shop, Worker, id_at, last_of};
use desk_turns::{Seat, Turn};
use git_object::Memory;
use keeper_api::MemKeeper;
use std::alloc::Global;
use std::sync::Wait;

/// A turn over an empty shop and so many seats, of which the last stands apart.
pub fn opened(
    alloc: Global,
    keeper: MemKeeper,
    seats: u32,
) -> Result<(Turn<Shop<MemKeeper>>, Vec<Seat>, Seat), Memory>
    requires { 0 < seats }
    ensures { IfOk result (λ made. All (IsIdle made.0) made.1.items × IsIdle made.0 made.2) }
{
    let (turn, mut seats) = Turn::new(alloc, Shop::new(alloc, keeper), seats)?;
    let Some(last) = last_of(&mut seats) else {
        return Err(Memory);
    };
    Ok((turn, seats, last))
}

/// A turn over an empty shop, and its two seats.
pub fn two_seats(
    alloc: Global,
    keeper: MemKeeper,
) -> Result<(Turn<Shop<MemKeeper>>, Seat, Seat), Memory>
    ensures { IfOk result (λ made. IsIdle made.0 made.1 × IsIdle made.0 made.2) }
{
    let (turn, mut seats, second) = opened(alloc, keeper, 2)?;
    let Some(first) = last_of(&mut seats) else {
        return Err(Memory);
    };
    Ok((turn, first, second))
}

// Whether the log has the entries that the workers added, each worker's in the order in which it added them, and no
// others.
fn is_whole(log: &[Logged], workers: &[Worker]) -> bool {
    let mut next = [0u32; 16];
    for entry in log {
        let Some(place) = next.get_mut(entry.seat as usize) else {
            return false;
        };
        if entry.id != id_at(entry.seat, *place) {
            return false;
        }
        *place = place.saturating_add(1);
    }
    for worker in workers {
        let Some(place) = next.get_mut(worker.seat.number() as usize) else {
            return false;
        };
        if *place != worker.added {
            return false;
        }
        *place = 0;
    }
    next == [0; 16]
}

/// Whether the log is whole, and how long it is.
pub fn read_log<W: Wait>(
    rt: &W,
    turn: &Turn<Shop<MemKeeper>>,
    seat: &mut Seat,
    workers: &[Worker],
) -> (bool, u64)
    requires { IsIdle turn.now seat.old }
    ensures { IsIdle turn.now seat.new }
{
    let shop = turn.take(rt, seat);
    let whole = is_whole(shop.log.as_slice(), workers);
    let length = shop.log.len() as u64;
    turn.leave(seat, shop);
    (whole, length)
}
