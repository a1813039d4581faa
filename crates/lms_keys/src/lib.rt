//! Keys of one level of trees, and of several: publishing, signing with the next leaf, and verifying.
//!
//! What it promises, and where to begin: `README.md` in this crate's folder.
#![tactic(auto)]

mod below;
mod drawing;
pub mod hss_laws;
pub mod laws;
mod linking;
mod lms_type;
mod nodes;
mod public_key;
mod publishing;
mod secret_key;
mod signing_key;
mod verifying;

pub use below::Below;
pub use lms_type::LmsType;
pub use public_key::{KeyFault, PublicKey};
pub use publishing::hss_public;
pub use secret_key::{MakeFault, SecretKey};
pub use signing_key::SigningKey;
pub use verifying::{verify, verify_any};
