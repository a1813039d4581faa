//! What came of serving.

use crate::{DeskFault, HttpDesk, Worker};
use desk_shops::{GateShop, Shop};
use keeper_layers::LentKeeper;
use links::TcpDoor;

/// A desk over a store that is lent to it.
pub type OpenDesk<R> = HttpDesk<Shop<LentKeeper<'static, R>>>;

/// A desk with a gate over a store that is lent to it.
pub type GatedDesk<R> = HttpDesk<GateShop<LentKeeper<'static, R>>>;

/// The workers that served, each with its seat as it was then, and how serving ended. There are none where it ended
/// before.
#[derive(Drop)]
pub struct Served {
    pub workers: Vec<Worker<TcpDoor>>,
    pub end: Result<(), DeskFault>,
}
