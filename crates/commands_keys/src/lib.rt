//! The commands that work on the key file, `key-gen` and `seal`, and the signature of its key in an envelope.
//!
//! What it promises, and where to begin: `README.md` in this crate's folder.

#![tactic(auto)]

mod commands;
mod envelopes;
mod inputs;
mod key_lines;
pub mod laws;
mod making_keys;
pub mod over_objects;
mod sealing;
mod signing_envelopes;

pub use commands::{key_gen, seal};
pub use envelopes::{fits_with, has_place, id_text, sealed, signed_text};
