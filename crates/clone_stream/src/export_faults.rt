//! Why a repository's stream is not written whole.

ghost use Rattle.std.specs.Prelude.{◌≡◌};
ghost use Rattle.clone_stream.specs.declared.export_faults.ExportFault.TheVariants as fault;
ghost use Rattle.clone_stream.specs.Exports.{fault_of_keeper};

use edge_io::Failed;
use git_object::ObjectId;
use keeper_api::KeeperFault;
use octets::Memory;

/// Why a stream was not written whole. Of `Damaged` and `TooLarge` the one that comes first in the text decides.
#[derive(Clone, Copy, Debug, PartialEq, Eq)]
pub enum ExportFault {
    /// What is kept at this id has another id of its own, or a body of more than 16 MiB.
    Damaged { id: ObjectId },
    /// The stream has more than 1 GiB; the limit in bytes.
    TooLarge { limit: u64 },
    /// The keeper failed. It comes exactly where the keeper counted a fault.
    KeeperFailed,
    /// The sink failed. It comes exactly where the sink counted a fault.
    SinkFailed,
    Memory,
}

impl From<Memory> for ExportFault {
    ghost from_gives = { λ _ e. e ≡ fault.Memory };

    fn from(_error: Memory) -> ExportFault {
        ExportFault::Memory
    }
}

impl From<Failed> for ExportFault {
    ghost from_gives = { λ _ e. e ≡ fault.SinkFailed };

    fn from(_error: Failed) -> ExportFault {
        ExportFault::SinkFailed
    }
}

impl From<KeeperFault> for ExportFault {
    ghost from_gives = { λ e f. f ≡ fault_of_keeper e };

    fn from(error: KeeperFault) -> ExportFault {
        match error {
            KeeperFault::Failed => ExportFault::KeeperFailed,
            KeeperFault::Memory => ExportFault::Memory,
        }
    }
}
