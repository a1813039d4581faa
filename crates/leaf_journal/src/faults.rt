//! Why a key file was not made or read, and why nothing was signed.

ghost use Rattle.std.specs.Prelude.{◌≡◌};

use edge_io::Failed;
use std::alloc::{AllocError, AllocFailed};

/// Why no key file was made.
#[derive(Debug, Clone, Copy, PartialEq, Eq)]
pub enum CreateFault {
    /// A tree of more than 15 levels.
    TooTall,
    /// The disk holds so many bytes already.
    NotEmpty { len: u64 },
    /// The disk failed.
    Disk,
    Memory,
}

/// Why no signer was made of what a disk holds.
#[derive(Debug, Clone, Copy, PartialEq, Eq)]
pub enum LoadFault {
    /// The number of bytes is not that of a key file with this header, or too small for a header.
    WrongLength { len: u64 },
    /// The first 64 bytes are no header.
    BadHeader,
    /// The disk failed.
    Disk,
    Memory,
}

/// Why nothing was signed.
#[derive(Debug, Clone, Copy, PartialEq, Eq)]
pub enum SignFault {
    /// Every leaf is marked.
    Exhausted,
    /// The disk failed. The leaf that was to sign stays marked.
    Disk,
}

impl From<Failed> for CreateFault {
    ghost use Rattle.leaf_journal.specs.declared.faults.CreateFault.TheVariants as fault;

    ghost from_gives = { λ _ e. e ≡ fault.Disk };

    fn from(_error: Failed) -> CreateFault {
        CreateFault::Disk
    }
}

impl From<Failed> for LoadFault {
    ghost use Rattle.leaf_journal.specs.declared.faults.LoadFault.TheVariants as fault;

    ghost from_gives = { λ _ e. e ≡ fault.Disk };

    fn from(_error: Failed) -> LoadFault {
        LoadFault::Disk
    }
}

impl From<Failed> for SignFault {
    ghost use Rattle.leaf_journal.specs.declared.faults.SignFault.TheVariants as fault;

    ghost from_gives = { λ _ e. e ≡ fault.Disk };

    fn from(_error: Failed) -> SignFault {
        SignFault::Disk
    }
}

impl From<AllocError> for CreateFault {
    ghost use Rattle.leaf_journal.specs.declared.faults.CreateFault.TheVariants as fault;

    ghost from_gives = { λ _ e. e ≡ fault.Memory };

    fn from(_error: AllocError) -> CreateFault {
        CreateFault::Memory
    }
}

impl<T: Drop> From<AllocFailed<T>> for CreateFault {
    ghost use Rattle.leaf_journal.specs.declared.faults.CreateFault.TheVariants as fault;

    ghost from_gives = { λ _ e. e ≡ fault.Memory };

    fn from(_error: AllocFailed<T>) -> CreateFault {
        CreateFault::Memory
    }
}

impl From<AllocError> for LoadFault {
    ghost use Rattle.leaf_journal.specs.declared.faults.LoadFault.TheVariants as fault;

    ghost from_gives = { λ _ e. e ≡ fault.Memory };

    fn from(_error: AllocError) -> LoadFault {
        LoadFault::Memory
    }
}
