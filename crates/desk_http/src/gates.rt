//! A desk that denies what the policy forbids, over HTTP.

ghost use Rattle.std.specs.Prelude.{◌≡◌, ◌<◌, IfErr, IfOk, OnOk, All, length};
ghost use Rattle.desk_turns.specs.Legal.{IsLegal};
ghost use Rattle.desk_turns.specs.Seats.{AreNew, IsIdle};
ghost use Rattle.desk_shops.specs.Calls.{IsLeftAlone};
ghost use Rattle.desk_core.specs.States.{KnowsStore};
ghost use Rattle.desk_shops.specs.GateStanding.{IsJustLoadedState};
ghost use Rattle.desk_http.specs.Opening.{IsOfOpening, ReadsLog, Serves};
ghost use Rattle.desk_http.specs.Served.{AreServed, EndsAs};

use crate::faults::{DeskFault, fault_of};
use crate::serving::{serve_at, unserved};
use crate::{GatedDesk, HttpDesk, HttpShop, Pushed, Served, Serves};
use desk_core::{GateReply, GateState};
use desk_shops::GateShop;
use desk_turns::Seat;
use edge_io::Failed;
use keeper_api::Keeper;
use keeper_layers::LentKeeper;
use links::listen;
use octets::Memory;
use std::alloc::Global;
use std::net::{Net, TcpListener, TcpStream};
use std::sync::Wait;
use std::thread::Threads;

impl<R: Keeper> HttpShop for GateShop<R> {
    ghost use Rattle.desk_http.specs.Gates.{told_of};

    ghost pushed_as = { told_of };

    fn to_pushed(answer: GateReply) -> Pushed {
        match answer {
            GateReply::Desk(reply) => Pushed::Replied { reply },
            GateReply::Denied { number: _, line } => Pushed::Denied { line },
        }
    }
}

// Loads the log of a store for a gate, which judges its entries.
fn load_gate<R: Keeper>(alloc: Global, store: &mut R) -> Result<GateState, DeskFault>
    ensures loaded { IfOk result (IsJustLoadedState (R.content store.new)) }
    ensures known { IfOk result (λ state. KnowsStore R.Keeper store.new state.engine) }
    ensures reads { ReadsLog R.Keeper store.old store.new result }
    ensures opening { IfErr result IsOfOpening }
{
    match GateState::load(alloc, store) {
        Ok(state) => Ok(state),
        Err(fault) => Err(fault_of(fault)),
    }
}

// A desk with a gate over a store whose log was just loaded, and its seats.
fn gate_over<R: Keeper + Drop>(
    alloc: Global,
    state: GateState,
    store: R,
    seats: u32,
) -> Result<(HttpDesk<GateShop<R>>, Vec<Seat>), Memory>
    requires some { 0 < seats }
    requires loaded { IsJustLoadedState (R.content store) state }
    requires known { KnowsStore R.Keeper store state.engine }
    requires left { IsLeftAlone R.Keeper store }
    ensures count { IfOk result (λ given. length given.1.items ≡ seats) }
    ensures seats { IfOk result (λ given. AreNew IsLegal given.0 given.1.items) }
    ensures idle { IfOk result (λ given. All (IsIdle given.0) given.1.items) }
{
    HttpDesk::new(alloc, GateShop::new(state, store), seats)
}

// Opens a desk with a gate over a store that is lent, and serves.
fn serve_lent_gate<R, W>(
    rt: &W,
    alloc: Global,
    store: &mut R,
    port: u16,
    workers: u32,
    connections: u32,
) -> Served
where
    R: Keeper + Drop + Send + 'static,
    W: Threads + Wait + Sync + Net<Listener = TcpListener, Stream = TcpStream>,
    requires { 0 < workers }
    ensures serves { Serves R.Keeper store.old store.new result.end }
    ensures served { AreServed ⟦<GatedDesk<R> as Serves>⟧ connections result.workers.items }
    ensures count { OnOk result.end (length result.workers.items ≡ workers) }
    ensures ends { EndsAs result.workers.items result.end }
{
    let state = match load_gate(alloc, store) {
        Ok(state) => state,
        Err(fault) => return unserved(alloc, fault),
    };
    let listener = match listen(rt, port) {
        Ok(listener) => listener,
        Err(Failed) => return unserved(alloc, DeskFault::NoListener),
    };
    let (desk, seats) = match gate_over(alloc, state, LentKeeper { store }, workers) {
        Ok(opened) => opened,
        Err(_) => return unserved(alloc, DeskFault::Memory),
    };
    serve_at(rt, alloc, &desk, &listener, seats, connections)
}

/// Serves as `serve_store` does, by a desk that denies each entry which the policy forbids: what the seats of its
/// workers saw is what a desk over a gate's shop answers. Before it serves, all entries of the log are judged.
pub fn serve_gate<R, W>(
    rt: &W,
    alloc: Global,
    mut store: R,
    port: u16,
    workers: u32,
    connections: u32,
) -> (R, Served)
where
    R: Keeper + Drop + Send + 'static,
    W: Threads + Wait + Sync + Net<Listener = TcpListener, Stream = TcpStream>,
    requires { 0 < workers }
    ensures serves { Serves R.Keeper store result.0 result.1.end }
    ensures served { AreServed ⟦<GatedDesk<R> as Serves>⟧ connections result.1.workers.items }
    ensures count { OnOk result.1.end (length result.1.workers.items ≡ workers) }
    ensures ends { EndsAs result.1.workers.items result.1.end }
{
    let served = serve_lent_gate(rt, alloc, &mut store, port, workers, connections);
    (store, served)
}
