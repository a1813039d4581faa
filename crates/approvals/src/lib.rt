//! Approvals: who signed an envelope, the approval for a change among the attestations, and putting one there.
//!
//! What it promises, and where to begin: `README.md` in this crate's folder.

#![tactic(auto)]

mod attest_faults;
mod attesting;
pub mod attesting_laws;
pub mod laws;
mod loading;
mod lookups;
mod payload_fields;
mod payloads;
mod putting;
mod signers;
mod sites;
mod surveys;

pub use attest_faults::AttestFault;
pub use attesting::{Attested, attest, attest_at};
pub use loading::load_file;
pub use lookups::{approvers, load_approval, path_of};
pub use payload_fields::{APPROVAL_TYPE, is_approval};
pub use payloads::payload_of;
pub use signers::env_signers;
pub use sites::{Site, find_site};
