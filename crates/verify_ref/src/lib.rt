//! The verdict on a reference of a repository, by its log, and the line that tells it.
//!
//! What it promises, and where to begin: `README.md` in this crate's folder.

#![tactic(auto)]

mod engine;
mod judged_log;
pub mod laws;
mod next_entry;
pub mod policy_laws;
mod texts;
mod verifying;

pub use engine::Engine;
pub use entry_rules::{EntryRules, Fault};
pub use judged_log::judge_entries;
pub use judging::{EntryVerdict, Verdict};
pub use next_entry::LogEngine;
pub use rsl_chain::LogFault;
pub use texts::text;
pub use verifying::{RefVerdict, verify};
