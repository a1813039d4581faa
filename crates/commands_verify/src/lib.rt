//! The commands `verify-ref` and `verify-global`.
//!
//! What it promises, and where to begin: `README.md` in this crate's folder.

#![tactic(auto)]

mod commands;
mod global_commands;
mod global_held_verdict;
pub mod global_laws;
pub mod global_over_objects;
mod global_verifying;
mod held_verdict;
pub mod laws;
pub mod over_objects;
mod verifying;

pub use commands::verify_ref;
pub use global_commands::verify_global;
