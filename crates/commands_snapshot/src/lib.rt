//! The command that keeps a tree: `snapshot`.
//!
//! What it promises, and where to begin: `README.md` in this crate's folder.

#![tactic(auto)]

mod commands;
pub mod laws;
mod making;
pub mod outcome_laws;
mod outcomes;
pub mod over_objects;
mod parents;
mod snapshots;
mod storing;

pub use commands::snapshot;
