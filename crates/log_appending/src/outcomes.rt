//! How `record` ends the program.

ghost use Rattle.std.specs.Prelude.{◌≡◌};
ghost use Rattle.log_appending.specs.Outcomes.{append_ending, reading_ending, record_ending};

use crate::{AppendFault, ReadingFault, RecordFault};
use worlds::{Ending, Part, Refusal};

fn failed(part: Part) -> Ending
    ensures { result ≡ Ending.Refused (Refusal.Fault part) }
{
    Ending::Refused {
        refusal: Refusal::Fault { part },
    }
}

fn refused(refusal: Refusal) -> Ending
    ensures { result ≡ Ending.Refused refusal }
{
    Ending::Refused { refusal }
}

fn reading_ending(fault: &ReadingFault) -> Ending
    ensures { result ≡ reading_ending fault.now }
{
    match fault {
        ReadingFault::KeyFile => refused(Refusal::KeyFile),
        ReadingFault::DiskFailed => failed(Part::Disk),
        ReadingFault::LogBroken { id: _ } => Ending::Broken,
        ReadingFault::TooLarge => refused(Refusal::TooLarge),
        ReadingFault::KeeperFailed => failed(Part::Keeper),
        ReadingFault::Memory => refused(Refusal::Memory),
    }
}

fn append_ending(fault: &AppendFault) -> Ending
    ensures { result ≡ append_ending fault.now }
{
    match fault {
        AppendFault::ClockFailed => failed(Part::Clock),
        AppendFault::Exhausted => refused(Refusal::Exhausted),
        AppendFault::DiskFailed => failed(Part::Disk),
        AppendFault::CommitFailed => failed(Part::Keeper),
        AppendFault::Memory => refused(Refusal::Memory),
        AppendFault::MemoryAfter => refused(Refusal::Memory),
    }
}

/// How the program ends.
pub fn record_ending(outcome: &Result<(), RecordFault>) -> Ending
    ensures { result ≡ record_ending outcome.now }
{
    match outcome {
        Ok(()) => Ending::Done,
        Err(RecordFault::Unread { fault }) => reading_ending(fault),
        Err(RecordFault::BreakUntold { id: _ }) => failed(Part::Sink),
        Err(RecordFault::Unappended { fault }) => append_ending(fault),
        Err(RecordFault::SinkFailed) => failed(Part::Sink),
    }
}
