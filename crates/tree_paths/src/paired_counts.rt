//! What two walks at once count, and how they end.

use crate::counts::Counts;
use git_object::ObjectId;

/// The counts of both walks.
#[derive(Clone, Copy, Debug, PartialEq, Eq)]
pub struct PairCounts {
    pub from: Counts,
    pub to: Counts,
}

/// How two walks at once end: at the object of a bad step of one of them, or with the counts of both.
#[derive(Clone, Copy, Debug, PartialEq, Eq)]
pub enum Paired {
    FromBroken(ObjectId),
    ToBroken(ObjectId),
    BothCounted(PairCounts),
}
