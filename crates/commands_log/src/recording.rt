//! The command `record`.

ghost use Rattle.std.specs.Prelude.{◌≡◌, ◌≤◌, ◌+◌};
ghost use Rattle.octets.specs.Causes.{HasCause};
ghost use Rattle.edge_io.specs.Moments.{LeavesOnly};
ghost use Rattle.git_object.specs.Names.{log_name};
ghost use Rattle.leaf_journal.specs.KeyFile.{KeepsUsed};
ghost use Rattle.log_appending.specs.Recording.{RecordEnds, clock_failed, disk_failed, keeper_failed, sink_failed};

use edge_io::{Clock, Disk, Failed, Sink, write_all};
use git_object::RefName;
use keeper_api::Keeper;
use log_appending::{
    LONGEST_LINE, NotAppended, ReadingFault, RecordFault, append_value, tell_unread,
    write_entry_line,
};
use std::alloc::Global;

/// Adds an entry to the log that records the value of a reference, `zeros` where it is not there, and prints its line.
/// It reads the key file, then the log, then the reference, asks the clock, signs with the first unused leaf, commits
/// once and prints; the first refusal decides. The memory for the line is taken before anything is read.
pub fn record<K: Sink, R: Keeper, D: Disk, C: Clock>(
    alloc: Global,
    name: &RefName,
    sink: &mut K,
    keeper: &mut R,
    disk: &mut D,
    clock: &mut C,
) -> Result<(), RecordFault>
    requires { name.now ≡ log_name → ⊥ }
    ensures ends { RecordEnds R.Keeper D.Disk name.now (C.left clock.old) (C.left clock.new) keeper.old keeper.new
        disk.old disk.new (K.contents sink.old) (K.contents sink.new) result }
    ensures any_moment { LeavesOnly D.moment D.left_since disk.old disk.new (KeepsUsed (D.may_leave disk.old)) }
    ensures sink { HasCause sink_failed (K.faults sink.old) (K.faults sink.new) result }
    ensures keeper { HasCause keeper_failed (R.faults keeper.old) (R.faults keeper.new) result }
    ensures disk { HasCause disk_failed (D.faults disk.old) (D.faults disk.new) result }
    ensures clock { HasCause clock_failed (C.faults clock.old) (C.faults clock.new) result }
    ensures reads { R.reads keeper.new ≤ R.reads keeper.old + 1000000 }
{
    let Ok(mut line) = Vec::with_capacity(alloc, LONGEST_LINE) else {
        return Err(RecordFault::Unread {
            fault: ReadingFault::Memory,
        });
    };
    let appended = match append_value(alloc, name, keeper, disk, clock) {
        Ok(appended) => appended,
        Err(NotAppended::Unread { fault }) => return Err(tell_unread(fault, line, sink)),
        Err(NotAppended::Unappended { fault }) => return Err(RecordFault::Unappended { fault }),
    };
    write_entry_line(&appended, &mut line);
    match write_all(sink, line.as_slice()) {
        Ok(()) => Ok(()),
        Err(Failed) => Err(RecordFault::SinkFailed),
    }
}
