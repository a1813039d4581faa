//! Metadata as it is written, before anything is judged.

use crate::{KeyId, Names, Person};
use octets::{Items, Octets};

/// A key as it is written: its id, the kind that it says, and the text of its public bytes.
#[derive(Drop)]
pub struct RawKey {
    pub id: KeyId,
    pub keytype: Octets,
    pub public: Octets,
}

/// A role, or what a rule says of its signers, as it is written. Listed are, in schema 1, the texts of ids of keys, and
/// in schema 2 names of persons.
#[derive(Drop)]
pub struct RawRole {
    pub listed: Names,
    pub threshold: u32,
}

/// What all metadata has: its schema and version, the keys and the persons as they are written.
#[derive(Drop)]
pub struct Roster {
    pub schema: u32,
    pub version: u64,
    pub keys: Items<RawKey>,
    pub persons: Items<Person>,
}

/// A root as it is written.
#[derive(Drop)]
pub struct RawRoot {
    pub roster: Roster,
    pub root: RawRole,
    pub targets: RawRole,
}
