//! The commands over the objects that each uses, with what each outcome means.

pub use crate::checking_evidence::{CheckFault, check_ending, evidence_check};
pub use crate::making_evidence::{MakeFault, evidence_make, make_ending};
pub use crate::offering::{OfferFault, mirror, mirror_ending};
