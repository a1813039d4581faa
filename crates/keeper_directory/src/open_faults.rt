//! Why a folder was not opened.

ghost use Rattle.std.specs.Prelude.{◌≡◌, ◌↔◌};
ghost use Rattle.keeper_directory.specs.declared.file_faults.FileFault.TheVariants as file;
ghost use Rattle.keeper_directory.specs.declared.open_faults.OpenFault.TheVariants as open_fault;

use crate::file_faults::FileFault;
use std::alloc::AllocError;

/// Why a folder was not opened.
#[derive(Clone, Copy, Debug, PartialEq, Eq, Drop)]
pub enum OpenFault {
    /// There is no folder of this path, it can't be made or read, or it is none that a keeper may work in: a change
    /// is being made or was left half made in it, it is Git's own, or it holds other things alone.
    Failed,
    Memory,
}

impl From<FileFault> for OpenFault {
    ghost from_gives = { λ fault e. (e ≡ open_fault.Memory) ↔ (fault ≡ file.Memory) };

    fn from(fault: FileFault) -> OpenFault {
        match fault {
            FileFault::Memory => OpenFault::Memory,
            _ => OpenFault::Failed,
        }
    }
}

impl From<AllocError> for OpenFault {
    ghost from_gives = { λ _ e. e ≡ open_fault.Memory };

    fn from(_error: AllocError) -> OpenFault {
        OpenFault::Memory
    }
}
