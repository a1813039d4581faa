//! How `snapshot` ends the program.

ghost use Rattle.std.specs.Prelude.{◌≡◌};
ghost use Rattle.commands_snapshot.specs.Snapshots.{input_ending, snapshot_ending, storing_ending};

use crate::making::InputFault;
use crate::snapshots::SnapshotFault;
use crate::storing::StoringFault;
use worlds::{Ending, Part, Refusal};

fn failed(part: Part) -> Ending
    ensures { result ≡ Ending.Refused (Refusal.Fault part) }
{
    Ending::Refused {
        refusal: Refusal::Fault { part },
    }
}

fn refused(refusal: Refusal) -> Ending
    ensures { result ≡ Ending.Refused refusal }
{
    Ending::Refused { refusal }
}

fn input_ending(fault: &InputFault) -> Ending
    ensures { result ≡ input_ending fault.now }
{
    match fault {
        InputFault::TooLong => refused(Refusal::Input),
        InputFault::NoListing => refused(Refusal::Input),
        InputFault::NoTree => refused(Refusal::Input),
        InputFault::LargeTree => refused(Refusal::Input),
        InputFault::SourceFailed => failed(Part::Source),
        InputFault::Memory => refused(Refusal::Memory),
    }
}

fn storing_ending(fault: &StoringFault) -> Ending
    ensures { result ≡ storing_ending fault.now }
{
    match fault {
        StoringFault::KeeperFailed => failed(Part::Keeper),
        StoringFault::NoCommit { id } => refused(Refusal::Object { id: *id }),
        StoringFault::ClockFailed => failed(Part::Clock),
        StoringFault::CommitFailed => failed(Part::Keeper),
        StoringFault::Memory => refused(Refusal::Memory),
    }
}

/// How the program ends.
pub fn snapshot_ending(outcome: &Result<(), SnapshotFault>) -> Ending
    ensures { result ≡ snapshot_ending outcome.now }
{
    match outcome {
        Ok(()) => Ending::Done,
        Err(SnapshotFault::Untaken { fault }) => input_ending(fault),
        Err(SnapshotFault::Unstored { fault }) => storing_ending(fault),
        Err(SnapshotFault::SinkFailed) => failed(Part::Sink),
    }
}
