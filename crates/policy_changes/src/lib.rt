//! What a policy says by name: its keys and rules, what a later one changes, who of its persons signed, and the names
//! in a log.
//!
//! What it promises, and where to begin: `README.md` in this crate's folder.

#![tactic(auto)]

mod changes;
pub mod laws;
pub mod log_laws;
mod names;
pub mod person_laws;
mod persons;
mod said;
mod says;
mod words;

pub use changes::{Difference, PolicyChange, change_said};
pub use names::LogNames;
pub use persons::persons_of;
pub use said::says_of;
pub use says::PolicySays;
