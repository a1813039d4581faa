//! The commands of whoever keeps a copy of a log: `mirror`, `evidence-make` and `evidence-check`.
//!
//! What it promises, and where to begin: `README.md` in this crate's folder.

#![tactic(auto)]

mod checking_evidence;
mod commands;
pub mod laws;
mod making_evidence;
mod offer_lines;
mod offering;
pub mod over_objects;

pub use commands::{evidence_check, evidence_make, mirror};
