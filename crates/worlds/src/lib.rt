//! The world that commands work on, how they end, and which object outside counted a fault.
//!
//! What it promises, and where to begin: `README.md` in this crate's folder.

#![tactic(auto)]

mod breaks;
mod ending;
mod messages;
mod outside;

pub use breaks::print_break;
pub use ending::{Ending, Part, Refusal};
pub use messages::{Line, Message};
pub use outside::{Kinds, Lent, Objects, Of, Outside};
