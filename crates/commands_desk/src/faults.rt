//! Why a push is not taken.

ghost use Rattle.std.specs.Prelude.{◌≡◌};
ghost use Rattle.commands_desk.specs.Faults.{push_ending};

use git_object::ObjectId;
use worlds::{Ending, Part, Refusal};

/// Why an entry is not sent, or not taken.
#[derive(Clone, Copy, Debug, PartialEq, Eq)]
pub enum PushFault {
    /// The log breaks at the commit of this id, and the line that says so was printed.
    LogBroken { id: ObjectId },
    /// The log has no entry of the number.
    NoEntry,
    /// The object of this id is the first that goes with the entry and is not there.
    Missing { id: ObjectId },
    /// The push would have more than 64 MiB.
    TooLarge,
    /// The desk's answer says no, or is none, and that was printed.
    Desk,
    KeeperFailed,
    PeerFailed,
    SinkFailed,
    Memory,
}

/// How the program ends.
pub fn push_ending(outcome: &Result<(), PushFault>) -> Ending
    ensures { result ≡ push_ending outcome.now }
{
    let refusal = match outcome {
        Ok(()) => return Ending::Done,
        Err(PushFault::LogBroken { id: _ }) => return Ending::Broken,
        Err(PushFault::NoEntry) => Refusal::Input,
        Err(PushFault::Missing { id }) => Refusal::Object { id: *id },
        Err(PushFault::TooLarge) => Refusal::TooLarge,
        Err(PushFault::Desk) => Refusal::Desk,
        Err(PushFault::KeeperFailed) => Refusal::Fault { part: Part::Keeper },
        Err(PushFault::PeerFailed) => Refusal::Fault { part: Part::Peer },
        Err(PushFault::SinkFailed) => Refusal::Fault { part: Part::Sink },
        Err(PushFault::Memory) => Refusal::Memory,
    };
    Ending::Refused { refusal }
}
