//! The words of a command, read exactly: which command they ask for, and the values that it is given.
//!
//! What it promises, and where to begin: `README.md` in this crate's folder.

#![tactic(auto)]

mod annotating;
mod approving;
mod arguments;
mod bare_words;
mod commands;
mod demonstrating;
mod evidence_words;
mod explaining;
mod first_words;
mod ids;
mod key_types;
pub mod laws;
mod numbers;
mod places;
mod pushing;
mod reading;
mod references;
mod sealing;
mod serving;
mod spaced;
pub mod value_laws;
mod verify_global;
mod verify_ref;
mod words_fault;

pub use commands::{Command, Height, Width};
pub use ids::{read_key_ids, read_object_ids};
pub use numbers::read_count;
pub use places::{FrontWords, KeyPlace, Store, after_places, store_at};
pub use reading::read_command;
pub use spaced::split_space;
pub use words_fault::WordsFault;
