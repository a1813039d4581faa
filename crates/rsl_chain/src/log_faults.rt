//! Why a log is refused.

ghost use Rattle.std.specs.Prelude.{◌≡◌};
ghost use Rattle.rsl_chain.specs.Logs.{fault_of_keeper};
ghost use Rattle.rsl_chain.specs.declared.log_faults.LogFault.TheVariants as fault;

use git_object::ObjectId;
use keeper_api::KeeperFault;
use octets::Memory;

/// Why a log or an entry was not read.
#[derive(Clone, Copy, Debug, PartialEq, Eq, Drop)]
pub enum LogFault {
    /// The commit of this id is missing or no entry, or its number is not the one that its child wants.
    Broken { id: ObjectId },
    /// The keeper failed. It comes exactly where the keeper counted a fault.
    Failed,
    Memory,
}

impl From<Memory> for LogFault {
    ghost from_gives = { λ _ e. e ≡ fault.Memory };

    fn from(_error: Memory) -> LogFault {
        LogFault::Memory
    }
}

impl From<KeeperFault> for LogFault {
    ghost from_gives = { λ e f. f ≡ fault_of_keeper e };

    fn from(error: KeeperFault) -> LogFault {
        match error {
            KeeperFault::Failed => LogFault::Failed,
            KeeperFault::Memory => LogFault::Memory,
        }
    }
}
