//! Why a body is no entry's.

ghost use Rattle.std.specs.Prelude.{◌≡◌};
ghost use Rattle.rsl_chain.specs.declared.entry_faults.EntryFault.TheVariants as fault;

use octets::Memory;

/// Why a body was not read as an entry's.
#[derive(Clone, Copy, Debug, PartialEq, Eq, Drop)]
pub enum EntryFault {
    /// The line of this number, counted from 1, is the first that is not as wanted; or the body ends early, and
    /// the number is one more than that of its lines.
    BadEntry { line: u64 },
    Memory,
}

impl From<Memory> for EntryFault {
    ghost from_gives = { λ _ e. e ≡ fault.Memory };

    fn from(_error: Memory) -> EntryFault {
        EntryFault::Memory
    }
}
