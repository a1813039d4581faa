//! What a commit is asked to do, and what a store answers of a reference.

use git_object::{Memory, ObjectId, Objects, RefName};
use octets::{Copied, Items};

/// A reference name and the id that it stands at.
#[derive(Debug, Drop)]
pub struct RefValue {
    pub name: RefName,
    pub id: ObjectId,
}

/// A reference name and the id that it is to stand at, or None where it is to go.
#[derive(Debug, Drop)]
pub struct RefChange {
    pub name: RefName,
    pub to: Option<ObjectId>,
}

/// A list of reference changes, which are made in order.
pub type RefChanges = Items<RefChange>;

/// Objects to keep, each under its own id, and reference changes, all to be made together.
#[derive(Drop)]
pub struct Change {
    pub objects: Objects,
    pub refs: RefChanges,
}

impl Copied for RefValue {
    fn copied(&self) -> Result<RefValue, Memory> {
        Ok(RefValue {
            name: self.name.copied()?,
            id: self.id,
        })
    }
}

impl Copied for RefChange {
    fn copied(&self) -> Result<RefChange, Memory> {
        Ok(RefChange {
            name: self.name.copied()?,
            to: self.to,
        })
    }
}
