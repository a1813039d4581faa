//! The command over the objects that it uses, with what each outcome means.

pub use crate::global_verifying::{VerifyFault, global_ending, verify_global};
