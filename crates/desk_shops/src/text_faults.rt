//! Why there is no text.

use git_object::ObjectId;

/// Why a repository has no text in memory. Of `Damaged` and `TooLarge` the one that comes first in the text decides.
#[derive(Clone, Copy, Debug, PartialEq, Eq, Drop)]
pub enum TextFault {
    /// What is kept at this id has another id of its own, or a body of more than 16 MiB.
    Damaged { id: ObjectId },
    /// The text has more than 256 MiB.
    TooLarge,
    /// The keeper failed.
    KeeperFailed,
    Memory,
}
