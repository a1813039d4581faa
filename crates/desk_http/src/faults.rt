//! Why a desk is not open, or serves no more.

ghost use Rattle.std.specs.Prelude.{◌≡◌};
ghost use Rattle.desk_http.specs.Opening.{fault_of};

use git_object::ObjectId;
use rsl_chain::LogFault;

/// Why a desk is not open over a store, or serves no more.
#[derive(Clone, Copy, Debug, PartialEq, Eq, Drop)]
pub enum DeskFault {
    /// The log breaks at the commit of this id.
    LogBroken { id: ObjectId },
    /// The store failed while the log was loaded.
    KeeperFailed,
    /// There is no listener at the port.
    NoListener,
    /// A worker had no door at the listener, or its door failed.
    DoorFailed,
    Memory,
}

/// Why no desk is open where no log was loaded.
pub(crate) fn fault_of(fault: LogFault) -> DeskFault
    ensures { result ≡ fault_of fault }
{
    match fault {
        LogFault::Broken { id } => DeskFault::LogBroken { id },
        LogFault::Failed => DeskFault::KeeperFailed,
        LogFault::Memory => DeskFault::Memory,
    }
}
