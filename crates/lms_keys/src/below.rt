//! The keys below a top key.

use crate::LmsType;
use lmots::OtsType;

/// The types of the keys that the leaves of a top key sign.
#[derive(Debug, Clone, Copy, PartialEq, Eq)]
pub struct Below {
    pub lms: LmsType,
    pub ots: OtsType,
}
