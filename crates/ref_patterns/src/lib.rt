//! Patterns: which references and which paths a rule speaks of.
//!
//! What it promises, and where to begin: `README.md` in this crate's folder.

#![tactic(auto)]

mod globs;
pub mod laws;
mod pattern;
mod space;

pub use pattern::{Pattern, PatternFault, is_pattern};
pub use space::Space;
