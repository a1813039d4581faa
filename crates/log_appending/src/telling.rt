//! Why no entry was added, and telling why nothing was read.

ghost use Rattle.std.specs.Prelude.{◌≡◌, ◌≤◌, []};
ghost use Rattle.std.specs.Vec.{vec_capacity};
ghost use Rattle.octets.specs.Causes.{HasCause};
ghost use Rattle.log_appending.specs.Recording.{TellsUnread, sink_failed, untold};

use crate::lines::write_break_line;
use crate::{AppendFault, ReadingFault};
use edge_io::{Failed, Sink, write_all};
use git_object::ObjectId;

/// Why no entry was recorded, or why that was not told.
#[derive(Clone, Copy, Debug, PartialEq, Eq)]
pub enum RecordFault {
    /// What is wanted was not read. Nothing changed, and of a broken log its break was printed.
    Unread { fault: ReadingFault },
    /// The log breaks at this commit, and that could not be told. Nothing changed.
    BreakUntold { id: ObjectId },
    /// All was read, and no entry was added.
    Unappended { fault: AppendFault },
    /// The entry was added, and could not be told.
    SinkFailed,
}

// Tells where a log breaks.
fn tell_break<K: Sink>(id: ObjectId, mut line: Vec<u8>, sink: &mut K) -> RecordFault
    requires empty { line.items ≡ [] }
    requires room { 92 ≤ vec_capacity line }
    ensures tells { TellsUnread (K.contents sink.old) (K.contents sink.new) (ReadingFault.LogBroken id) result }
    ensures sink { HasCause sink_failed (K.faults sink.old) (K.faults sink.new) (untold result) }
{
    write_break_line(&id, &mut line);
    match write_all(sink, line.as_slice()) {
        Ok(()) => RecordFault::Unread {
            fault: ReadingFault::LogBroken { id },
        },
        Err(Failed) => RecordFault::BreakUntold { id },
    }
}

/// Tells why nothing was read, where that is told here: of a broken log with the line of its break, into an empty
/// buffer with room for it.
pub fn tell_unread<K: Sink>(fault: ReadingFault, line: Vec<u8>, sink: &mut K) -> RecordFault
    requires empty { line.items ≡ [] }
    requires room { 92 ≤ vec_capacity line }
    ensures tells { TellsUnread (K.contents sink.old) (K.contents sink.new) fault result }
    ensures sink { HasCause sink_failed (K.faults sink.old) (K.faults sink.new) (untold result) }
{
    match fault {
        ReadingFault::LogBroken { id } => tell_break(id, line, sink),
        ReadingFault::KeyFile => RecordFault::Unread {
            fault: ReadingFault::KeyFile,
        },
        ReadingFault::DiskFailed => RecordFault::Unread {
            fault: ReadingFault::DiskFailed,
        },
        ReadingFault::TooLarge => RecordFault::Unread {
            fault: ReadingFault::TooLarge,
        },
        ReadingFault::KeeperFailed => RecordFault::Unread {
            fault: ReadingFault::KeeperFailed,
        },
        ReadingFault::Memory => RecordFault::Unread {
            fault: ReadingFault::Memory,
        },
    }
}
