//! A desk and a gate over connections: workers that serve them, and what each is told.
//!
//! What it promises, and where to begin: `README.md` in this crate's folder.

#![tactic(auto)]

mod answering;
mod answers;
mod connections;
mod desks;
mod faults;
mod gates;
pub mod laws;
mod opening;
mod served;
mod serving;
mod serving_desks;
mod serving_gates;
mod shops;
mod staffing;
mod telling;
mod workers;

pub use answers::verdict_line;
pub use connections::{End, serve_connection};
pub use desks::HttpDesk;
pub use faults::DeskFault;
pub use gates::serve_gate;
pub use opening::open_desk;
pub use served::{GatedDesk, OpenDesk, Served};
pub use serving::serve_store;
pub use serving_desks::{Pushed, Serves};
pub use serving_gates::{Gate, NoGate, Point};
pub use shops::HttpShop;
pub use staffing::workers_at;
pub use workers::{Worker, WorkerEnd, serve_all, serve_worker};
