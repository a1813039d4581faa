//! What an offered log is to the kept one.

use git_object::ObjectId;

/// What an offered log is to the kept one.
#[derive(Clone, Copy, Debug, PartialEq, Eq)]
pub enum Offer {
    /// It goes on where the kept one ends; the number of entries of the kept one and of the offered one.
    Taken {
        from: u64,
        to: u64,
    },
    /// It is the kept one; the number of its entries.
    Same {
        count: u64,
    },
    /// The kept one goes on where it ends; the number of entries of both.
    Behind {
        kept: u64,
        offered: u64,
    },
    /// The number of the first entries that differ, and the ids of both.
    Forked {
        number: u64,
        kept: ObjectId,
        offered: ObjectId,
    },
}
