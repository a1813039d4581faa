//! How a call on a file ended where it did not succeed.

ghost use Rattle.std.specs.Prelude.{◌≡◌, ◌↔◌};
ghost use Rattle.std.specs.IoError.{error_kind};
ghost use Rattle.std.specs.declared.io.ErrorKind.TheVariants as kind;
ghost use Rattle.keeper_api.specs.declared.keeper_faults.KeeperFault.TheVariants as keeper;
ghost use Rattle.keeper_directory.specs.declared.file_faults.FileFault.TheVariants as file;

use keeper_api::KeeperFault;
use octets::Memory;
use std::alloc::{AllocError, AllocFailed};
use std::io;
use std::io::ErrorKind;

/// Why a call on a file did not succeed.
#[derive(Clone, Copy, Debug, PartialEq, Eq, Drop)]
pub enum FileFault {
    /// Nothing stands at the place, or the folder above it is not there.
    Missing,
    /// Something above the place is a file.
    UnderFile,
    /// A folder stands at the place.
    IsFolder,
    /// Something stands at the place already, or in the folder that was to go.
    Occupied,
    /// Anything else that the system said, and a file of another form.
    Failed,
    Memory,
}

impl From<io::Error> for FileFault {
    ghost from_gives = { λ error e.
        ((e ≡ file.Missing) ↔ (error_kind error ≡ kind.NotFound))
        × ((e ≡ file.Memory) ↔ (error_kind error ≡ kind.OutOfMemory)) };

    fn from(error: io::Error) -> FileFault {
        match error.kind() {
            ErrorKind::NotFound => FileFault::Missing,
            ErrorKind::NotADirectory => FileFault::UnderFile,
            ErrorKind::IsADirectory => FileFault::IsFolder,
            ErrorKind::DirectoryNotEmpty | ErrorKind::AlreadyExists => FileFault::Occupied,
            ErrorKind::OutOfMemory => FileFault::Memory,
            _ => FileFault::Failed,
        }
    }
}

impl From<Memory> for FileFault {
    ghost from_gives = { λ _ e. e ≡ file.Memory };

    fn from(_error: Memory) -> FileFault {
        FileFault::Memory
    }
}

impl From<AllocError> for FileFault {
    ghost from_gives = { λ _ e. e ≡ file.Memory };

    fn from(_error: AllocError) -> FileFault {
        FileFault::Memory
    }
}

impl<T: Drop> From<AllocFailed<T>> for FileFault {
    ghost from_gives = { λ _ e. e ≡ file.Memory };

    fn from(_error: AllocFailed<T>) -> FileFault {
        FileFault::Memory
    }
}

impl From<FileFault> for KeeperFault {
    ghost from_gives = { λ fault e. (e ≡ keeper.Memory) ↔ (fault ≡ file.Memory) };

    fn from(fault: FileFault) -> KeeperFault {
        match fault {
            FileFault::Memory => KeeperFault::Memory,
            _ => KeeperFault::Failed,
        }
    }
}
