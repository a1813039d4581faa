//! Adding an entry to the log: opening key file and log, what is drafted and signed, and the one commit.
//!
//! What it promises, and where to begin: `README.md` in this crate's folder.

#![tactic(auto)]

mod appending;
mod committing;
mod drafting;
pub mod laws;
mod lines;
mod opening;
mod outcomes;
mod signing;
mod telling;
mod values;

pub use appending::{AppendFault, Appended, append_entry};
pub use lines::{LONGEST_LINE, append, write_entry_line};
pub use opening::{OpenLog, ReadingFault, open_log, open_whole_log, unread_log};
pub use outcomes::record_ending;
pub use telling::{RecordFault, tell_unread};
pub use values::{NotAppended, append_value};
