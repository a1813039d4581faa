//! What a push is.

use git_object::Objects;
use rsl_chain::Entry;

/// The most bytes that a push may have: 64 MiB.
pub const LARGEST_PUSH: u64 = 67108864;

/// An entry of the log, and objects, of which the entry's commit is one.
#[derive(Drop)]
pub struct Push {
    pub entry: Entry,
    pub objects: Objects,
}
