//! Why an approval was not put into the attestations.

use git_object::ObjectId;

/// Why an approval was not put into the attestations.
#[derive(Clone, Copy, Debug, PartialEq, Eq, Drop)]
pub enum AttestFault {
    /// The first object on the way that is in the way: it is not readable, is no directory, is a directory where the
    /// approval shall stand, or is a tree that would grow past 16 MiB.
    Unreadable { id: ObjectId },
    /// The store failed. It comes exactly where the keeper counted a fault.
    Failed,
    Memory,
}
