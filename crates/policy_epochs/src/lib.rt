//! Policies one after another: which entries of a log bring a policy into force, and why another does not.
//!
//! What it promises, and where to begin: `README.md` in this crate's folder.

#![tactic(auto)]

mod anchors;
mod epochs;
mod faults;
mod files;
pub mod laws;
mod policies;
mod succession;
mod telling;

pub use epochs::Epochs;
pub use faults::{EpochVerdict, PolicyFault};
pub use policies::{Policy, PolicyFile};
pub use succession::succession_fault;
