//! Serving a port of this machine by a desk over a store.

ghost use Rattle.std.specs.Prelude.{◌≡◌, ◌<◌, [], Err, IfErr, OnOk, All, length};
ghost use Rattle.desk_turns.specs.Legal.{IsLegal};
ghost use Rattle.desk_turns.specs.Seats.{AreNew, IsIdle};
ghost use Rattle.desk_http.specs.Opening.{IsOfWorkers, Serves};
ghost use Rattle.desk_http.specs.Served.{AreServed, EndsAs, doors_stood};

use crate::faults::DeskFault;
use crate::opening::{desk_over, load_log};
use crate::staffing::workers_at;
use crate::{HttpDesk, HttpShop, NoGate, OpenDesk, Served, Serves, Worker, WorkerEnd, serve_all};
use desk_turns::Seat;
use edge_io::Failed;
use keeper_api::Keeper;
use keeper_layers::LentKeeper;
use links::{TcpDoor, listen};
use std::alloc::Global;
use std::net::{Net, TcpListener, TcpStream};
use std::sync::Wait;
use std::thread::Threads;

// Whether no worker's door failed.
fn are_served(workers: &[Worker<TcpDoor>]) -> bool
    ensures { result ≡ doors_stood workers.now }
{
    workers.iter().all(|worker| !matches!(worker.end, Some(WorkerEnd::DoorFailed(_))))
}

// Nobody was served.
pub(crate) fn unserved(alloc: Global, fault: DeskFault) -> Served
    ensures workers { result.workers.items ≡ [] }
    ensures end { result.end ≡ Err fault }
    ensures ends { EndsAs result.workers.items result.end }
{
    Served {
        workers: Vec::new(alloc),
        end: Err(fault),
    }
}

/// Serves so many connections by a worker for each of these seats of a desk, side by side.
pub(crate) fn serve_at<S, W>(
    rt: &W,
    alloc: Global,
    desk: &HttpDesk<S>,
    listener: &TcpListener,
    seats: Vec<Seat>,
    connections: u32,
) -> Served
where
    S: HttpShop + Drop + Send,
    W: Threads + Wait + Sync + Net<Listener = TcpListener, Stream = TcpStream>,
    requires idle { All (IsIdle desk.now) seats.items }
    requires new { AreNew IsLegal desk.now seats.items }
    ensures served { AreServed ⟦<HttpDesk<S> as Serves>⟧ connections result.workers.items }
    ensures count { OnOk result.end (length result.workers.items ≡ length seats.items) }
    ensures ends { EndsAs result.workers.items result.end }
    ensures fault { IfErr result.end IsOfWorkers }
{
    let mut workers = match workers_at(alloc, listener, seats) {
        Ok(workers) => workers,
        Err(fault) => return unserved(alloc, fault),
    };
    serve_all(
        rt,
        alloc,
        desk,
        workers.as_mut_slice(),
        &NoGate,
        connections,
    );
    if are_served(workers.as_slice()) {
        Served {
            workers,
            end: Ok(()),
        }
    } else {
        Served {
            workers,
            end: Err(DeskFault::DoorFailed),
        }
    }
}

// Opens a desk over a store that is lent, and serves.
fn serve_lent<R, W>(
    rt: &W,
    alloc: Global,
    store: &mut R,
    port: u16,
    workers: u32,
    connections: u32,
) -> Served
where
    R: Keeper + Drop + Send + 'static,
    W: Threads + Wait + Sync + Net<Listener = TcpListener, Stream = TcpStream>,
    requires { 0 < workers }
    ensures serves { Serves R.Keeper store.old store.new result.end }
    ensures served { AreServed ⟦<OpenDesk<R> as Serves>⟧ connections result.workers.items }
    ensures count { OnOk result.end (length result.workers.items ≡ workers) }
    ensures ends { EndsAs result.workers.items result.end }
{
    let state = match load_log(alloc, store) {
        Ok(state) => state,
        Err(fault) => return unserved(alloc, fault),
    };
    let listener = match listen(rt, port) {
        Ok(listener) => listener,
        Err(Failed) => return unserved(alloc, DeskFault::NoListener),
    };
    let (desk, seats) = match desk_over(alloc, state, LentKeeper { store }, workers) {
        Ok(opened) => opened,
        Err(_) => return unserved(alloc, DeskFault::Memory),
    };
    serve_at(rt, alloc, &desk, &listener, seats, connections)
}

/// Opens a desk over a store at a port of this machine, serves so many connections by each of so many workers side by
/// side, and gives the store back. What the seats of its workers saw is what a desk over a shop answers, which takes
/// each entry that comes next. Want of memory aside, `LogBroken` comes exactly where the log breaks, and `KeeperFailed`
/// exactly where the store counted a fault while its log was read. Where it ends by either, or by `NoListener`, nothing
/// was done to the store but that its log was read.
pub fn serve_store<R, W>(
    rt: &W,
    alloc: Global,
    mut store: R,
    port: u16,
    workers: u32,
    connections: u32,
) -> (R, Served)
where
    R: Keeper + Drop + Send + 'static,
    W: Threads + Wait + Sync + Net<Listener = TcpListener, Stream = TcpStream>,
    requires { 0 < workers }
    ensures serves { Serves R.Keeper store result.0 result.1.end }
    ensures served { AreServed ⟦<OpenDesk<R> as Serves>⟧ connections result.1.workers.items }
    ensures count { OnOk result.1.end (length result.1.workers.items ≡ workers) }
    ensures ends { EndsAs result.1.workers.items result.1.end }
{
    let served = serve_lent(rt, alloc, &mut store, port, workers, connections);
    (store, served)
}
