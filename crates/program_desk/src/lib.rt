//! What a program does about the desk that its words ask for: the numbers of `serve`, the desk itself, with a gate or
//! without, and how a desk's end is said.
//!
//! What it promises, and where to begin: `README.md` in this crate's folder.

#![tactic(auto)]

mod ends;
mod serving;
mod words;

pub use ends::say_end;
pub use serving::serve_asked;
pub use words::{ServeWords, serve_words};
