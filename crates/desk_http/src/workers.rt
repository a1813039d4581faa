//! Workers, each with a seat and a door of its own.

ghost use Rattle.std.specs.Prelude.{◌≡◌, ◌<◌, ℕ, length, slice_index_or, All};
ghost use Rattle.desk_turns.specs.Seats.{IsIdle};
ghost use Rattle.desk_http.specs.Workers.{IsServed};

use crate::{Gate, Serves, serve_connection};
use desk_turns::Seat;
use edge_io::Failed;
use links::Door;
use std::alloc::Global;
use std::sync::Wait;
use std::thread;
use std::thread::Threads;

/// How a worker ended, and how many connections it served and handed back.
#[derive(Clone, Copy, Debug, PartialEq, Eq, Drop)]
pub enum WorkerEnd {
    /// As many as it was to serve.
    Served(u32),
    /// No link came any more.
    Closed(u32),
    /// The door failed.
    DoorFailed(u32),
}

/// A seat at a desk, a door at which its connections come in, and how it ended.
#[derive(Drop)]
pub struct Worker<E> {
    pub seat: Seat,
    pub door: E,
    pub end: Option<WorkerEnd>,
}

/// Serves so many connections one after another, fewer where no link comes any more or the door fails. Each is handed
/// back to the door once it is served.
pub fn serve_worker<D: Serves, E: Door, G: Gate, W: Wait>(
    rt: &W,
    alloc: Global,
    desk: &D,
    worker: &mut Worker<E>,
    gate: &G,
    connections: u32,
)
    requires { IsIdle (D.turn desk.now) worker.old.seat }
    ensures served { IsServed D.Serves E.Input.Source E.Output.Sink (record {
      waiting = E.waiting;
      back = E.handed_back;
      faults = E.faults;
    }) desk.now connections worker.old worker.new }
    ensures idle { IsIdle (D.turn desk.now) worker.new.seat }
{
    let mut served = 0;
    'connections: for _ in 0..connections {
        match worker.door.next() {
            Ok(Some(mut link)) => {
                serve_connection(rt, alloc, desk, &mut worker.seat, &mut link, gate);
                worker.door.done(link);
                served += 1;
            }
            Ok(None) => {
                worker.end = Some(WorkerEnd::Closed(served));
                return;
            }
            Err(Failed) => {
                worker.end = Some(WorkerEnd::DoorFailed(served));
                return;
            }
        }
    }
    worker.end = Some(WorkerEnd::Served(served));
}

/// Runs the workers beside each other, each with so many connections.
pub fn serve_all<D: Serves + Sync, E: Door + Send, G: Gate + Sync, W: Threads + Wait + Sync>(
    rt: &W,
    alloc: Global,
    desk: &D,
    workers: &mut [Worker<E>],
    gate: &G,
    connections: u32,
)
where
    E::Input: Send,
    E::Output: Send,
    requires { All (λ w. IsIdle (D.turn desk.now) w.seat) workers.old }
    ensures { (i : ℕ) (d : _) → i < length workers.old → IsServed D.Serves E.Input.Source E.Output.Sink (record {
      waiting = E.waiting;
      back = E.handed_back;
      faults = E.faults;
    }) desk.now connections (slice_index_or workers.old i d) (slice_index_or workers.new i d) }
{
    let threads = workers.len();
    if threads > 0 {
        thread::for_each_mut(
            rt,
            workers,
            threads,
            &|_, worker: &mut Worker<E>|
                requires { IsIdle (D.turn desk.now) worker.old.seat }
                ensures { IsServed D.Serves E.Input.Source E.Output.Sink (record {
                  waiting = E.waiting;
                  back = E.handed_back;
                  faults = E.faults;
                }) desk.entry.now connections worker.old worker.new }
            { serve_worker(rt, alloc, desk, worker, gate, connections) },
        );
    }
}
