//! What the readings of entries and of envelopes say, in a reader's words.
//!
//! What it promises, and where to begin: `README.md` in this crate's folder.

#![tactic(auto)]

pub mod laws;
