//! The answers of judging. `F` is the fault that an entry has by the rules that are given.

use git_object::ObjectId;

/// What is answered of one entry.
#[derive(Debug, Drop)]
pub enum EntryVerdict<F> {
    /// An entry of a reference without a fault.
    Authorised,
    /// An entry of a reference, and its fault.
    Refused(F),
    /// An annotation.
    Noted,
}

/// What is answered of a reference.
#[derive(Debug, Drop)]
pub enum Verdict<F> {
    /// The first entry that is neither authorised nor rescued, and its fault.
    Violation { number: u64, fault: F },
    /// The reference does not stand at the target of its last entry that is not skipped.
    TipDiffers { kept: ObjectId, recorded: ObjectId },
    /// How many entries the reference has.
    Accepted { count: u64 },
}
