//! Entries and their bodies.

use git_object::{Ids, KeyId, ObjectId, RefName};
use octets::Octets;

/// What an entry says.
#[derive(Drop)]
pub enum EntryBody {
    /// A reference has a new target; the id of zeros stands for a reference that was deleted.
    Reference {
        name: RefName,
        target: ObjectId,
    },
    /// Earlier entries, by their ids, are skipped or just spoken of.
    Annotation {
        ids: Ids,
        skip: bool,
        message: Octets,
    },
}

/// An entry of the log: a commit's id and what was read of its body.
#[derive(Drop)]
pub struct Entry {
    pub id: ObjectId,
    /// The entry's place in the log, counted from 1.
    pub number: u64,
    /// The entry before it; None exactly for number 1.
    pub parent: Option<ObjectId>,
    pub body: EntryBody,
    /// The id of the key that the entry names as its signer's.
    pub signer: Option<KeyId>,
    /// The signature over `signed`; empty where the entry is not signed.
    pub signature: Octets,
    /// The bytes that are signed: the commit's body without the signature's line.
    pub signed: Octets,
}
