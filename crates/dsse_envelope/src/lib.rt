//! Envelopes: signed texts of any type (DSSE, the Dead Simple Signing Envelope).
//!
//! What it promises, and where to begin: `README.md` in this crate's folder.

#![tactic(auto)]

mod authentication;
mod base64_texts;
mod envelope;
mod reading;
mod sealing;
mod writing;

pub use authentication::pae;
pub use envelope::{Envelope, EnvelopeFault, Signature, Signatures};
pub use sealing::SealFault;
