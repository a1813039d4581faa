//! The commands of gittuf as one function, `run`, over the words and the objects outside.
//!
//! What it promises, and where to begin: `README.md` in this crate's folder.

#![tactic(auto)]

mod key_types;
pub mod laws;
mod running;

pub use running::run;
pub use worlds::Outside;
