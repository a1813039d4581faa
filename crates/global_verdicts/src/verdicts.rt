//! The verdict by global rules.

use global_rules::GlobalWhy;

/// The verdict on a reference by global rules.
#[derive(Drop)]
pub enum GlobalVerdict {
    /// The entry of this number is the first of the reference's that is not skipped and breaks a rule; why.
    Violation { number: u64, why: GlobalWhy },
    /// None of them does; how many entries the reference has.
    Kept { count: u64 },
}
