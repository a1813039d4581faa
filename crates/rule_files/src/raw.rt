//! Rule files as they are written, before anything is judged.

use octets::{Items, Octets};
use root_metadata::{RawRole, Roster};

/// A rule as it is written.
#[derive(Drop)]
pub struct RawRule {
    pub name: Octets,
    pub paths: Items<Octets>,
    pub terminating: bool,
    pub role: RawRole,
}

/// A rule file as it is written.
#[derive(Drop)]
pub struct RawRuleFile {
    pub name: Octets,
    pub roster: Roster,
    pub rules: Items<RawRule>,
}
