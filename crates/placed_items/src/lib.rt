//! Lists of things that stand under ids, in which the place of an id is found by one look-up.
//!
//! What it promises, and where to begin: `README.md` in this crate's folder.

#![tactic(auto)]

mod fronts;
mod index;
pub mod laws;
mod placed;

pub use placed::{Identified, Placed};
