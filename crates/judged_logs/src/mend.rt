//! What mends a violation.

use git_object::ObjectId;
use octets::Items;

/// What mends a violation of a reference: once these of its entries are skipped, its next entry completes a recovery
/// where it is authorised and has the tree.
#[derive(Drop)]
pub struct Mend {
    /// The numbers of those of its entries that are to be skipped, in rising order.
    pub skip: Items<u64>,
    /// The number of the entry at which the reference then stands, if there is one.
    pub prior: Option<u64>,
    /// The target of that entry.
    pub from: Option<ObjectId>,
    /// The tree that the next entry is to have: that of this target, or zeros where there is nothing. None where that
    /// state is broken, and so no entry completes a recovery.
    pub tree: Option<ObjectId>,
}
