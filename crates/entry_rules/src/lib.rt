//! The rules by which an entry of the log is judged, over policies and a store.
//!
//! What it promises, and where to begin: `README.md` in this crate's folder.

#![tactic(auto)]

mod between;
mod changes;
mod faults;
mod finding;
mod judge;
mod known_changes;
mod known_paths;
pub mod laws;
mod learned;
mod meeting;
mod roots;
mod signing;
mod targets;
mod unmet;

pub use faults::Fault;
pub use judge::{EntryRules, KnowingRules};
pub use known_changes::Lesson;
pub use learned::{Learned, LessonStore};
pub use signing::signer_among;
