//! A small judge in memory, for what measures the engine of judging.
//!
//! What it promises, and where to begin: `README.md` in this crate's folder.

#![tactic(auto)]

mod judge;
mod policies;

pub use judge::{SmallJudge, SmallStore};
pub use policies::{Holder, SmallFault};
