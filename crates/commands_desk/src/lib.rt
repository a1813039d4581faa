//! The commands `push`, and `serve` as far as it comes before a desk is opened.
//!
//! What it promises, and where to begin: `README.md` in this crate's folder.

#![tactic(auto)]

mod commands;
mod faults;
pub mod laws;
pub mod over_objects;
mod preparing;
mod push_commands;
pub mod push_laws;
pub mod push_over_objects;
mod pushing;
mod readying;
mod telling;

pub use commands::serve;
pub use push_commands::push;
