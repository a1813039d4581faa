//! The command over the objects that it uses, with what each outcome means and what it reads.

pub use crate::verifying::{VerifyFault, verify_ending, verify_ref};
