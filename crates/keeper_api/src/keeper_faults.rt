//! Why a store refuses.

ghost use Rattle.std.specs.Prelude.{◌≡◌};
ghost use Rattle.keeper_api.specs.declared.keeper_faults.KeeperFault.TheVariants as fault;

use git_object::Memory;
use std::alloc::{AllocError, AllocFailed};

/// Why a keeper refused a call.
#[derive(Clone, Copy, Debug, PartialEq, Eq, Drop)]
pub enum KeeperFault {
    /// The store failed. It comes exactly where the keeper counted a fault.
    Failed,
    Memory,
}

impl From<Memory> for KeeperFault {
    ghost from_gives = { λ _ e. e ≡ fault.Memory };

    fn from(_error: Memory) -> KeeperFault {
        KeeperFault::Memory
    }
}

impl From<AllocError> for KeeperFault {
    ghost from_gives = { λ _ e. e ≡ fault.Memory };

    fn from(_error: AllocError) -> KeeperFault {
        KeeperFault::Memory
    }
}

impl<T: Drop> From<AllocFailed<T>> for KeeperFault {
    ghost from_gives = { λ _ e. e ≡ fault.Memory };

    fn from(_error: AllocFailed<T>) -> KeeperFault {
        KeeperFault::Memory
    }
}
