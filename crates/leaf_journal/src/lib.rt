//! A key whose leaves sign once: the key file, of one level or of two, a signer over it that marks a leaf on the disk
//! before it signs, and signing with it, once for all commands that sign.
//!
//! What it promises, and where to begin: `README.md` in this crate's folder.

#![tactic(auto)]

mod faults;
mod first_free;
mod headers;
pub mod laws;
mod leaf_writes;
mod loading;
mod making;
mod open_keys;
mod signers;
mod signing;

pub use faults::{CreateFault, LoadFault, SignFault};
pub use making::{create, create_two};
pub use open_keys::{OpenFault, OpenKey, open_key, use_leaf};
pub use signers::Signer;
pub use signing::{KeyFault, Signed, sign_message};
