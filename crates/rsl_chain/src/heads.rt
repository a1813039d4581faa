//! What of an entry makes the chain.

use git_object::ObjectId;

/// An entry's place in the chain.
#[derive(Clone, Copy, Debug, PartialEq, Eq, Drop)]
pub struct Head {
    /// Counted from 1.
    pub number: u64,
    /// The entry before it; None exactly for number 1.
    pub parent: Option<ObjectId>,
}
