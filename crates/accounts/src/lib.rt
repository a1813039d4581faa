//! One proved account of a log: each entry as it was judged, the verdicts on references, by one pass, and what would be
//! found of one entry more.
//!
//! What it promises, and where to begin: `README.md` in this crate's folder.

#![tactic(auto)]

mod changes;
mod entry_lines;
mod finding;
mod judged_log;
mod later_engine;
mod later_lines;
mod later_log;
mod later_pass;
pub mod laws;
mod mending;
mod pass;
mod rows;
mod skip_lines;
mod unrecorded;
mod verdict_lines;
mod would_lines;

pub use entry_lines::entry_line;
pub use judged_log::JudgedLog;
pub use later_lines::later_line;
pub use later_log::LaterLog;
pub use later_pass::judge_from;
pub use mending::mend_of;
pub use pass::{judge_before, judge_log};
pub use skip_lines::{ToldSkip, tell_skip};
pub use verdict_lines::{ToldVerdict, tell_verdict};
pub use would_lines::{ToldWould, fault_line, tell_would};
