//! Global rules as they are written, before anything is judged.

use crate::GlobalKind;
use octets::{Items, Octets};

/// A global rule as it is written.
#[derive(Drop)]
pub struct RawGlobalRule {
    pub name: Octets,
    pub paths: Items<Octets>,
    pub kind: GlobalKind,
}
