//! Why a log is not printed whole.

ghost use Rattle.std.specs.Prelude.{◌≡◌};
ghost use Rattle.commands_log.specs.Faults.{fault_of_log};
ghost use Rattle.commands_log.specs.declared.faults.LogCommandFault.TheVariants as fault;

use edge_io::Failed;
use git_object::ObjectId;
use octets::Memory;
use rsl_chain::LogFault;

/// Why a log was not printed whole.
#[derive(Clone, Copy, Debug, PartialEq, Eq)]
pub enum LogCommandFault {
    /// The log breaks at the commit of this id.
    Broken { id: ObjectId },
    /// The store failed. It comes exactly where the store counted a fault.
    KeeperFailed,
    /// The sink failed. It comes exactly where the sink counted a fault.
    SinkFailed,
    Memory,
}

impl From<Memory> for LogCommandFault {
    ghost from_gives = { λ _ e. e ≡ fault.Memory };

    fn from(_error: Memory) -> LogCommandFault {
        LogCommandFault::Memory
    }
}

impl From<Failed> for LogCommandFault {
    ghost from_gives = { λ _ e. e ≡ fault.SinkFailed };

    fn from(_error: Failed) -> LogCommandFault {
        LogCommandFault::SinkFailed
    }
}

impl From<LogFault> for LogCommandFault {
    ghost from_gives = { λ e f. f ≡ fault_of_log e };

    fn from(error: LogFault) -> LogCommandFault {
        match error {
            LogFault::Broken { id } => LogCommandFault::Broken { id },
            LogFault::Failed => LogCommandFault::KeeperFailed,
            LogFault::Memory => LogCommandFault::Memory,
        }
    }
}
