//! What became of an entry in doubt.

use git_object::ObjectId;

/// What became of an entry in doubt.
#[derive(Clone, Copy, Debug, PartialEq, Eq, Drop)]
pub enum Settled {
    /// Nothing is in doubt now: nothing was, or the store does not have the entry.
    Clear,
    /// The store has the entry of this id, and it is the log's last now.
    TookIn { id: ObjectId },
    /// The log's reference is elsewhere. The doubt stays.
    Moved { found: ObjectId, expected: ObjectId },
    /// The store failed. The doubt stays.
    Fault,
    /// The doubt stays.
    Memory,
}
