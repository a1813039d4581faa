//! Global rules: what each entry must keep whatever its signers, with the ancestors of a commit that they ask for.
//!
//! What it promises, and where to begin: `README.md` in this crate's folder.

#![tactic(auto)]

pub mod ancestry_laws;
mod changed_paths;
mod commits;
mod descents;
mod entry_whys;
mod found_files;
mod greatest;
pub mod laws;
mod rewinds;
mod targets;
mod thresholds;
mod walking;
mod whys;

pub use descents::Descent;
pub use entry_whys::why_of;
pub use found_files::{FoundFile, find_file};
pub use targets::descends;
pub use whys::{Change, GlobalWhy};
