//! Why metadata was not written.

ghost use Rattle.std.specs.Prelude.{◌≡◌};
ghost use Rattle.metadata_writing.specs.declared.faults.WriteFault.TheVariants as fault;

use octets::Memory;
use std::alloc::AllocError;

/// Why metadata was not written.
#[derive(Clone, Copy, Debug, PartialEq, Eq, Drop)]
pub enum WriteFault {
    /// A name or a pattern is not UTF-8, or the text would not read as the value.
    Unwritable,
    Memory,
}

impl From<Memory> for WriteFault {
    ghost from_gives = { λ _ e. e ≡ fault.Memory };

    fn from(_error: Memory) -> WriteFault {
        WriteFault::Memory
    }
}

impl From<AllocError> for WriteFault {
    ghost from_gives = { λ _ e. e ≡ fault.Memory };

    fn from(_error: AllocError) -> WriteFault {
        WriteFault::Memory
    }
}
