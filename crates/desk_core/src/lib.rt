//! Desks in memory: one that judges what it was given, and a gate that takes only entries without fault.
//!
//! What it promises, and where to begin: `README.md` in this crate's folder.

#![tactic(auto)]

mod catching_up;
mod copying;
mod desk_state;
mod gate_catching_up;
pub mod gate_laws;
mod gate_replies;
mod gate_state;
pub mod lasting_laws;
pub mod laws;
mod looking;
mod stepping;
mod weighing;

pub use desk_state::DeskState;
pub use gate_replies::GateReply;
pub use gate_state::GateState;
