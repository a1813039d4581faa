//! The commands over the log: `log`, which prints its entries, and `record` and `annotate`, which add one.
//!
//! What it promises, and where to begin: `README.md` in this crate's folder.

#![tactic(auto)]

mod annotating;
mod commands;
mod faults;
pub mod laws;
mod lines;
mod logging;
pub mod over_objects;
mod printing;
mod recording;

pub use commands::{annotate, log, record};
pub use faults::LogCommandFault;
