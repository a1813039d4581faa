//! Opening a desk over a store.

ghost use Rattle.std.specs.Prelude.{◌≡◌, ◌<◌, IfErr, IfOk, All, length};
ghost use Rattle.desk_turns.specs.Legal.{IsLegal};
ghost use Rattle.desk_turns.specs.Seats.{AreNew, IsIdle};
ghost use Rattle.desk_core.specs.Loading.{IsUnjudged};
ghost use Rattle.desk_shops.specs.Calls.{IsLeftAlone};
ghost use Rattle.desk_http.specs.Opening.{ComesOfLog, IsOfOpening, ReadsLog};

use crate::HttpDesk;
use crate::faults::{DeskFault, fault_of};
use desk_core::DeskState;
use desk_shops::Shop;
use desk_turns::Seat;
use keeper_api::Keeper;
use octets::Memory;
use std::alloc::Global;

// Loads the log of a store for a desk.
pub(crate) fn load_log<R: Keeper>(alloc: Global, store: &mut R) -> Result<DeskState, DeskFault>
    ensures unjudged { IfOk result (IsUnjudged (R.content store.new)) }
    ensures reads { ReadsLog R.Keeper store.old store.new result }
    ensures opening { IfErr result IsOfOpening }
{
    match DeskState::load(alloc, store) {
        Ok(state) => Ok(state),
        Err(fault) => Err(fault_of(fault)),
    }
}

// A desk over a store whose log was just loaded, and its seats.
pub(crate) fn desk_over<R: Keeper + Drop>(
    alloc: Global,
    state: DeskState,
    store: R,
    seats: u32,
) -> Result<(HttpDesk<Shop<R>>, Vec<Seat>), Memory>
    requires some { 0 < seats }
    requires loaded { IsUnjudged (R.content store) state }
    requires left { IsLeftAlone R.Keeper store }
    ensures count { IfOk result (λ given. length given.1.items ≡ seats) }
    ensures seats { IfOk result (λ given. AreNew IsLegal given.0 given.1.items) }
    ensures idle { IfOk result (λ given. All (IsIdle given.0) given.1.items) }
{
    HttpDesk::new(alloc, Shop::new(state, store), seats)
}

/// A desk over a store whose log is loaded now, and its seats, numbered from 1 in order. All its entries are of nobody.
/// Of the store a stop leaves what it holds, where it tells what a stop leaves. `LogBroken` comes exactly where the log
/// breaks, and `KeeperFailed` exactly where the store counted a fault, want of memory aside.
pub fn open_desk<R: Keeper + Drop>(
    alloc: Global,
    mut store: R,
    seats: u32,
) -> Result<(HttpDesk<Shop<R>>, Vec<Seat>), DeskFault>
    requires some { 0 < seats }
    requires left { IsLeftAlone R.Keeper store }
    ensures count { IfOk result (λ given. length given.1.items ≡ seats) }
    ensures seats { IfOk result (λ given. AreNew IsLegal given.0 given.1.items) }
    ensures idle { IfOk result (λ given. All (IsIdle given.0) given.1.items) }
    ensures log { ComesOfLog R.Keeper store result }
    ensures opening { IfErr result IsOfOpening }
{
    let state = match load_log(alloc, &mut store) {
        Ok(state) => state,
        Err(fault) => return Err(fault),
    };
    match desk_over(alloc, state, store, seats) {
        Ok(opened) => Ok(opened),
        Err(_) => Err(DeskFault::Memory),
    }
}
