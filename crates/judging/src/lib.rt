//! Judging the entries of a reference state log in one forward pass, over rules that are given.
//!
//! What it promises, and where to begin: `README.md` in this crate's folder.

#![tactic(auto)]

mod book;
mod deciding;
mod engine;
mod judged;
mod judges;
mod keeping;
pub mod laws;
mod noting;
mod references;
mod taking;
mod verdicts;

pub use engine::Engine;
pub use judges::{Finding, Judge, JudgeFault, KeyIds};
pub use verdicts::{EntryVerdict, Verdict};
