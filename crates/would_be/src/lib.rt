//! What an entry of a reference would be found to be, if given keys signed it now: which rules it would not meet.
//!
//! What it promises, and where to begin: `README.md` in this crate's folder.

#![tactic(auto)]

mod changes;
mod finding;
pub mod laws;
mod proposals;
mod signing;
mod telling;

pub use finding::would;
pub use proposals::{Proposed, Stood, Would};
pub use signing::is_key_of;
