//! What is found of two commits.

/// Whether a commit is among the first ancestors of another, of which there may be too many to tell.
#[derive(Clone, Copy, Debug, PartialEq, Eq, Drop)]
pub enum Descent {
    /// It is among them.
    Yes,
    /// The order of ancestors has an end, and it is not there.
    No,
    /// It is not among those that are looked at, and the order has more.
    TooFar,
}
