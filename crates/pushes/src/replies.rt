//! What a desk answers of a push.

ghost use Rattle.std.specs.Prelude.{◌≡◌};
ghost use Rattle.pushes.specs.declared.replies.Reply.TheVariants as reply;

use git_object::ObjectId;
use octets::Memory;

/// What is answered of a push.
#[derive(Clone, Copy, Debug, PartialEq, Eq, Drop)]
pub enum Reply {
    /// It is the entry of this number now.
    Done { number: u64, id: ObjectId },
    /// Its entry is the one of this number.
    Already { number: u64 },
    /// Its entry goes back to another than the last entry. This is how many there are, and the last, or zeros.
    Stale { number: u64, id: ObjectId },
    /// Its text is wrong at the line that begins at this place.
    Malformed { at: u64 },
    /// An object that it needs is neither in it nor in the store.
    Incomplete { id: ObjectId },
    /// Its text is longer than it may be, or an object is larger.
    TooLarge { length: u64 },
    /// Its entry has another number than the next one.
    Misnumbered { number: u64, expected: u64 },
    /// The log's reference is neither at the last entry nor at the one in doubt.
    Moved { found: ObjectId, expected: ObjectId },
    /// The store failed.
    Fault,
    Memory,
}

impl From<Memory> for Reply {
    ghost from_gives = { λ _ e. e ≡ reply.Memory };

    fn from(_error: Memory) -> Reply {
        Reply::Memory
    }
}
