//! Stores of Git objects and references, and the one that keeps them in memory.
//!
//! What it promises, and where to begin: `README.md` in this crate's folder.

#![tactic(auto)]

mod changes;
mod keeper_faults;
mod keepers;
pub mod laws;
mod memory_calls;
mod memory_keeper;
mod memory_trees;
mod questions;
mod ref_plans;
mod store_changes;
mod tree_edits;

pub use changes::{Change, RefChange, RefChanges, RefValue};
pub use keeper_faults::KeeperFault;
pub use keepers::Keeper;
pub use memory_keeper::MemKeeper;
pub use questions::{is_empty, load_object};
pub use store_changes::commit_change;
