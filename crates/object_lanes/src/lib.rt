//! The ids of up to eight objects at once.
//!
//! What it promises, and where to begin: `README.md` in this crate's folder.

#![tactic(auto)]

mod groups;
mod heads;
mod lanes;

pub use groups::{LARGEST_GROUP, group_ids};
pub use heads::Unnamed;
