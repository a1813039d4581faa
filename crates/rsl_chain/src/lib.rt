//! The log as one chain, its entries, and the bodies that these are read from.
//!
//! What it promises, and where to begin: `README.md` in this crate's folder.

#![tactic(auto)]

mod chain;
mod drafts;
mod entries;
mod entry_faults;
mod heads;
pub mod laws;
mod log_faults;
mod parts;
mod places;
mod reading;
mod rows;
mod words;

pub use chain::{Log, object_entry, read_entry};
pub use drafts::{Draft, join_signature};
pub use entries::{Entry, EntryBody};
pub use entry_faults::EntryFault;
pub use log_faults::LogFault;
pub use reading::read_body;
