//! The command `demo`, and the repository that it makes: a policy, a branch of a number of changes, and a log that
//! records each of them by a signed entry.
//!
//! What it promises, and where to begin: `README.md` in this crate's folder.

#![tactic(auto)]

mod commands;
mod entries;
mod filling;
mod histories;
mod journals;
pub mod key_laws;
mod keyrings;
pub mod laws;
mod lines;
mod metadata;
pub mod over_objects;
mod policies;
mod rules;
mod running;
pub mod signature_laws;
mod trees;

pub use commands::demo;
pub use histories::{main_name, make_change};
pub use keyrings::Keyring;
