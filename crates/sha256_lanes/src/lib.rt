//! SHA-256 of eight texts at once and along eight hash chains at once, by vectors whose lane i works on text or chain
//! i.
//!
//! What it promises, and where to begin: `README.md` in this crate's folder.
#![tactic(auto)]

mod between;
mod chains;
mod constants;
mod eights;
pub mod laws;
mod message;
mod rounds;
mod schedule;
mod texts;
mod words;

pub use between::walk_between;
pub use chains::{step, walk};
pub use eights::digest_eight;
