//! The command `approve`.
//!
//! What it promises, and where to begin: `README.md` in this crate's folder.

#![tactic(auto)]

mod approving;
mod commands;
mod ends;
mod keeping;
pub mod laws;
mod lines;
mod outcomes;
pub mod over_objects;
mod preparing;
mod storing;

pub use commands::approve;
