//! The marks of each reference: which of its entries were recorded, which of them are not skipped, and which are
//! pending, which means refused and not rescued.
//!
//! What it promises, and where to begin: `README.md` in this crate's folder.

#![tactic(auto)]

mod marks;
mod pending;
mod rows;
mod slots;

pub use marks::Marks;
