//! Why an offer is refused.

ghost use Rattle.std.specs.Prelude.{◌≡◌};
ghost use Rattle.mirror.specs.Faults.{fault_of_keeper, fault_of_kept, fault_of_offered, fault_of_stream};

use clone_stream::StreamFault;
use git_object::ObjectId;
use keeper_api::KeeperFault;
use rsl_chain::LogFault;

/// Why an offer is refused. What stands first here comes first.
#[derive(Clone, Copy, Debug, PartialEq, Eq)]
pub enum MirrorFault {
    /// The source gives no stream, or failed: one of the first six refusals of a stream.
    Stream { fault: StreamFault },
    /// The kept log breaks at the commit of this id.
    BrokenKept { id: ObjectId },
    /// The offered log breaks at the commit of this id.
    BrokenOffered { id: ObjectId },
    /// The kept store failed.
    Failed,
    Memory,
}

/// What a refusal of the stream is here.
pub fn fault_of_stream(fault: &StreamFault) -> MirrorFault
    ensures { result ≡ fault_of_stream fault.now }
{
    match fault {
        StreamFault::Memory => MirrorFault::Memory,
        _ => MirrorFault::Stream { fault: *fault },
    }
}

/// What a refusal of the kept log is here.
pub fn fault_of_kept(fault: &LogFault) -> MirrorFault
    ensures { result ≡ fault_of_kept fault.now }
{
    match fault {
        LogFault::Broken { id } => MirrorFault::BrokenKept { id: *id },
        LogFault::Failed => MirrorFault::Failed,
        LogFault::Memory => MirrorFault::Memory,
    }
}

/// What a refusal of the offered log is here. It lies in a store in memory that never fails.
pub fn fault_of_offered(fault: &LogFault) -> MirrorFault
    ensures { result ≡ fault_of_offered fault.now }
{
    match fault {
        LogFault::Broken { id } => MirrorFault::BrokenOffered { id: *id },
        LogFault::Failed => MirrorFault::Memory,
        LogFault::Memory => MirrorFault::Memory,
    }
}

/// What a refusal of the kept store is here.
pub fn fault_of_keeper(fault: &KeeperFault) -> MirrorFault
    ensures { result ≡ fault_of_keeper fault.now }
{
    match fault {
        KeeperFault::Failed => MirrorFault::Failed,
        KeeperFault::Memory => MirrorFault::Memory,
    }
}
