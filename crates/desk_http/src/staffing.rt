//! The workers of a desk.

ghost use Rattle.std.specs.Prelude.{◌≡◌, ◌+◌, None, IfErr, IfOk, IfSome, IfNone, All, length};
ghost use Rattle.desk_turns.specs.Seats.{IsIdle, TurnId};
ghost use Rattle.desk_http.specs.Opening.{IsOfWorkers};
ghost use Rattle.desk_http.specs.Served.{IsFirst};

use crate::Worker;
use crate::faults::DeskFault;
use desk_turns::Seat;
use edge_io::Failed;
use links::TcpDoor;
use std::alloc::Global;
use std::net::TcpListener;

// The last of these seats.
fn last_of(seats: &mut Vec<Seat>) -> Option<Seat>
    ensures left { (t : TurnId) → All (IsIdle t) seats.old.items → All (IsIdle t) seats.new.items }
    ensures seat { (t : TurnId) → All (IsIdle t) seats.old.items → IfSome result (IsIdle t) }
    ensures left_first { (t : TurnId) → All (IsFirst t) seats.old.items → All (IsFirst t) seats.new.items }
    ensures first { (t : TurnId) → All (IsFirst t) seats.old.items → IfSome result (IsFirst t) }
    ensures fewer { IfSome result (λ seat. length seats.new.items + 1 ≡ length seats.old.items) }
    ensures none { IfNone result (length seats.old.items ≡ 0) }
{
    seats.pop()
}

/// A worker for each of these seats, each with a door of its own at the listener, of which none has ended. `DoorFailed`
/// comes where the system gives none, and else `Memory` alone.
pub fn workers_at(
    alloc: Global,
    listener: &TcpListener,
    mut seats: Vec<Seat>,
) -> Result<Vec<Worker<TcpDoor>>, DeskFault>
    ensures idle { (t : TurnId) → All (IsIdle t) seats.items
        → IfOk result (λ workers. All (λ w. IsIdle t w.seat) workers.items) }
    ensures first { (t : TurnId) → All (IsFirst t) seats.items
        → IfOk result (λ workers. All (λ w. IsFirst t w.seat) workers.items) }
    ensures fresh { IfOk result (λ workers. All (λ w. w.end ≡ None) workers.items) }
    ensures count { IfOk result (λ workers. length workers.items ≡ length seats.items) }
    ensures fault { IfErr result IsOfWorkers }
{
    let mut workers = Vec::new(alloc);
    'seats: while let Some(seat) = last_of(&mut seats) {
        let door = match TcpDoor::at(listener) {
            Ok(door) => door,
            Err(Failed) => return Err(DeskFault::DoorFailed),
        };
        let worker = Worker {
            seat,
            door,
            end: None,
        };
        match workers.push(worker) {
            Ok(()) => {}
            Err(_) => return Err(DeskFault::Memory),
        }
    }
    Ok(workers)
}
