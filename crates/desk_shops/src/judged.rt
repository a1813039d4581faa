//! What is said of a reference.

use git_object::ObjectId;
use verify_ref::RefVerdict;

/// What is said of a reference.
#[derive(Drop)]
pub enum Judged {
    Verdict(RefVerdict),
    /// An entry of the log is not there any more, or is none. It never comes over a store that tells what it holds.
    LogBroken { id: ObjectId },
}
