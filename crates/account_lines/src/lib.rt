//! Lines of an account: what is told of an entry, who says that it made it, and which leaves of a key it used.
//!
//! What it promises, and where to begin: `README.md` in this crate's folder.

#![tactic(auto)]

mod authors;
mod changes;
mod entries;
mod faults;
pub mod laws;
pub mod leaf_laws;
mod leaves;
mod lines;
mod made;
mod mending;
mod rows;
mod skips;
mod telling;
mod times;
mod unrecorded;
mod verdicts;
mod walking;

pub use authors::author;
pub use entries::entry_line;
pub use leaves::leaf_of;
pub use mending::violation_line;
pub use rows::{EntryRow, Later};
pub use skips::skip_line;
pub use telling::tell_used;
pub use times::time;
pub use unrecorded::unrecorded_line;
pub use verdicts::verdict_line;
pub use walking::greatest_used;
