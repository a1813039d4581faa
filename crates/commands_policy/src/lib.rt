//! The commands that speak of the policy: `policy-apply` and `explain`.
//!
//! What it promises, and where to begin: `README.md` in this crate's folder.

#![tactic(auto)]

mod applying;
mod commands;
mod explaining;
pub mod laws;
mod outcomes;
pub mod over_objects;
mod policies;
mod rule_lines;

pub use commands::{explain, policy_apply};
