//! Global rules, and the file that holds them.

use crate::Patterns;
use octets::{Items, Octets};

/// What a global rule asks: that at least so many persons of the rules that are reached signed, or that a reference
/// never goes back.
#[derive(Clone, Copy, Debug, PartialEq, Eq, Drop)]
pub enum GlobalKind {
    Threshold { threshold: u32 },
    NoRewind,
}

/// A global rule: what it asks for the names that one of its patterns matches.
#[derive(Drop)]
pub struct GlobalRule {
    pub name: Octets,
    pub paths: Patterns,
    pub kind: GlobalKind,
}

/// Global rules, in the order of their file.
pub type GlobalRules = Items<GlobalRule>;

/// A file of global rules.
#[derive(Drop)]
pub struct GlobalFile {
    pub rules: GlobalRules,
}
