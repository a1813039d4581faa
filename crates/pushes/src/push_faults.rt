//! Why a push is refused.

ghost use Rattle.std.specs.Prelude.{◌≡◌};
ghost use Rattle.pushes.specs.declared.push_faults.PushFault.TheVariants as fault;

use octets::Memory;

/// Why a text is no push.
#[derive(Clone, Copy, Debug, PartialEq, Eq, Drop)]
pub enum PushFault {
    /// The line that begins at this place is the first that is not as wanted.
    Malformed { at: u64 },
    /// The text is longer than 64 MiB, and this is its length; or an object is larger than 16 MiB, and this is its
    /// size, or 2^64 - 1 where that is greater.
    TooLarge { length: u64 },
    Memory,
}

impl From<Memory> for PushFault {
    ghost from_gives = { λ _ e. e ≡ fault.Memory };

    fn from(_error: Memory) -> PushFault {
        PushFault::Memory
    }
}
