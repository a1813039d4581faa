//! Why there is no push of an entry.

ghost use Rattle.std.specs.Prelude.{◌≡◌};
ghost use Rattle.pushes.specs.Making.{fault_of_keeper, fault_of_log};
ghost use Rattle.pushes.specs.declared.make_faults.MakeFault.TheVariants as fault;

use git_object::{Memory, ObjectId};
use keeper_api::KeeperFault;
use rsl_chain::LogFault;

/// Why there is no push of an entry.
#[derive(Clone, Copy, Debug, PartialEq, Eq, Drop)]
pub enum MakeFault {
    /// At this id of the log stands no entry.
    Broken { id: ObjectId },
    /// The object of this id is the first that goes with the entry and is not there.
    Missing { id: ObjectId },
    /// The push would have more than 64 MiB.
    TooLarge,
    /// The store failed. It comes exactly where the store counted a fault.
    KeeperFailed,
    Memory,
}

impl From<KeeperFault> for MakeFault {
    ghost from_gives = { λ e f. f ≡ fault_of_keeper e };

    fn from(error: KeeperFault) -> MakeFault {
        match error {
            KeeperFault::Failed => MakeFault::KeeperFailed,
            KeeperFault::Memory => MakeFault::Memory,
        }
    }
}

impl From<LogFault> for MakeFault {
    ghost from_gives = { λ e f. f ≡ fault_of_log e };

    fn from(error: LogFault) -> MakeFault {
        match error {
            LogFault::Broken { id } => MakeFault::Broken { id },
            LogFault::Failed => MakeFault::KeeperFailed,
            LogFault::Memory => MakeFault::Memory,
        }
    }
}

impl From<Memory> for MakeFault {
    ghost from_gives = { λ _ f. f ≡ fault.Memory };

    fn from(_error: Memory) -> MakeFault {
        MakeFault::Memory
    }
}
