//! Evidence: two entries of one signer as one text, which everybody reads alike, and what they show of the signer.
//!
//! What it promises, and where to begin: `README.md` in this crate's folder.

#![tactic(auto)]

mod dossier_faults;
mod dossier_parts;
mod dossiers;
mod findings;
pub mod laws;
mod public_bytes;
mod uses;

pub use dossier_faults::DossierFault;
pub use dossiers::Dossier;
pub use findings::{Finding, find};
pub use public_bytes::PublicBytes;
