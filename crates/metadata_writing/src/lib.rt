//! Writing a policy's metadata: roots and rule files as JSON.
//!
//! What it promises, and where to begin: `README.md` in this crate's folder.

#![tactic(auto)]

mod faults;
mod metadata;
mod same;
mod texts;
mod values;
mod writing;

pub use faults::WriteFault;
pub use writing::{file_text, root_text, write_root, write_rule_file};
