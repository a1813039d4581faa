//! A second party's copy of a repository, whose log only grows, and which keeps a trace of each other past that it is
//! offered.
//!
//! What it promises, and where to begin: `README.md` in this crate's folder.

#![tactic(auto)]

mod changes;
mod comparing;
pub mod laws;
mod mirror_faults;
mod mirroring;
mod names;
mod offers;
mod settling;

pub use mirror_faults::MirrorFault;
pub use mirroring::offer;
pub use offers::Offer;
