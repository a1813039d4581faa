//! What programs share at their start: words, endings, and the kinds of stores that they work on.
//!
//! What it promises, and where to begin: `README.md` in this crate's folder.

#![tactic(auto)]

mod any;
mod opening;
mod starting;

pub use any::AnyKeeper;
pub use opening::{end_store, open_store};
pub use starting::{refuse, refuse_schema, words_of};
