//! Workers, each with a seat of its own.

ghost use Rattle.std.specs.Prelude.{◌<◌, ℕ, length, slice_index_or, All, IfOk, IfSome};
ghost use Rattle.desk_turns.specs.Seats.{TurnId, IsIdle};
ghost use Rattle.tests_turns.specs.Pushes.{IsServed};

use crate::pushing::push_as;
use crate::shops::{Refusal, Shop};
use desk_turns::{Seat, Turn};
use git_object::{Kind, Memory, ObjectId, id_of};
use keeper_api::Keeper;
use std::alloc::Global;
use std::sync::Wait;
use std::thread;
use std::thread::Threads;

/// Where a worker passes a gate: before its first push, and after its last.
#[derive(Clone, Copy, Debug, PartialEq, Eq)]
pub enum Point {
    Read,
    Answered,
}

/// What workers pass.
pub trait Gate {
    /// Lets a worker pass, now or later.
    fn pass(&self, seat: u32, point: Point);
}

/// A gate that stands open.
#[derive(Drop)]
pub struct NoGate;

impl Gate for NoGate {
    fn pass(&self, _seat: u32, _point: Point) {}
}

/// A seat, whether it looks before it pushes, how many entries it added, and its last answer.
#[derive(Drop)]
pub struct Worker {
    pub seat: Seat,
    pub looks: bool,
    pub added: u32,
    pub end: Option<Result<u64, Refusal>>,
}

/// The id of a seat's entry after so many of its own.
pub fn id_at(seat: u32, before: u32) -> ObjectId {
    let number = seat as u64 * (1 << 32) + before as u64;
    id_of(Kind::Blob, &number.to_be_bytes())
}

/// The last of these seats.
pub fn last_of(seats: &mut Vec<Seat>) -> Option<Seat>
    ensures left { (t : TurnId) → All (IsIdle t) seats.old.items → All (IsIdle t) seats.new.items }
    ensures seat { (t : TurnId) → All (IsIdle t) seats.old.items → IfSome result (IsIdle t) }
{
    seats.pop()
}

/// A worker for each of the seats. Those of even numbers look before they push.
pub fn workers_of(alloc: Global, mut seats: Vec<Seat>) -> Result<Vec<Worker>, Memory>
    ensures { (t : TurnId) → All (IsIdle t) seats.items
        → IfOk result (λ workers. All (λ w. IsIdle t w.seat) workers.items) }
{
    let mut workers = Vec::new(alloc);
    'seats: for _ in 0..seats.len() {
        let Some(seat) = last_of(&mut seats) else {
            return Ok(workers);
        };
        let looks = seat.number() % 2 == 0;
        workers.push(Worker {
            seat,
            looks,
            added: 0,
            end: None,
        })?;
    }
    Ok(workers)
}

/// So many pushes.
pub fn serve_worker<R: Keeper + Drop, G: Gate, W: Wait>(
    rt: &W,
    alloc: Global,
    turn: &Turn<Shop<R>>,
    worker: &mut Worker,
    gate: &G,
    pushes: u32,
)
    requires { IsIdle turn.now worker.old.seat }
    ensures served { IsServed worker.old worker.new }
    ensures idle { IsIdle turn.now worker.new.seat }
{
    let number = worker.seat.number();
    gate.pass(number, Point::Read);
    let mut added = 0;
    'pushes: for _ in 0..pushes {
        let id = id_at(number, added);
        let end = push_as(rt, alloc, turn, &mut worker.seat, worker.looks, &id);
        if end.is_ok() {
            added += 1;
        }
        worker.end = Some(end);
    }
    worker.added = added;
    gate.pass(number, Point::Answered);
}

/// Runs the workers beside each other, each with so many pushes.
pub fn serve_all<R: Keeper + Drop + Send, G: Gate + Sync, W: Threads + Wait + Sync>(
    rt: &W,
    alloc: Global,
    turn: &Turn<Shop<R>>,
    workers: &mut [Worker],
    gate: &G,
    pushes: u32,
)
    requires { All (λ w. IsIdle turn.now w.seat) workers.old }
    ensures { (i : ℕ) (d : _) → i < length workers.old
        → IsServed (slice_index_or workers.old i d) (slice_index_or workers.new i d) }
{
    let threads = workers.len();
    if threads > 0 {
        thread::for_each_mut(
            rt,
            workers,
            threads,
            &|_, worker: &mut Worker| { serve_worker(rt, alloc, turn, worker, gate, pushes) },
        );
    }
}
