//! The command `annotate`.

ghost use Rattle.std.specs.Prelude.{◌≡◌, ◌≤◌, ◌<◌, ◌+◌, ℕ, List, length, IfOk, Some};
ghost use Rattle.octets.specs.Causes.{HasCause};
ghost use Rattle.edge_io.specs.Moments.{LeavesOnly};
ghost use Rattle.leaf_journal.specs.KeyFile.{KeepsUsed};
ghost use Rattle.rsl_chain.specs.declared.entries.EntryBody.TheVariants.{Annotation};
ghost use Rattle.log_appending.specs.Recording.{AnnotateEnds, NoteEnds, clock_failed, disk_failed, keeper_failed};
ghost use Rattle.log_appending.specs.Recording.{no_clock, no_disk, no_keeper, sink_failed};

use edge_io::{Clock, Disk, Failed, Sink, write_all};
use git_object::Ids;
use keeper_api::Keeper;
use log_appending::{
    Appended, LONGEST_LINE, NotAppended, ReadingFault, RecordFault, append_entry, open_log,
    tell_unread, write_entry_line,
};
use octets::{Memory, Octets};
use rsl_chain::EntryBody;
use std::alloc::Global;

fn body_of(ids: &Ids, skip: bool, message: &Octets) -> Result<EntryBody, Memory>
    ensures { IfOk result (λ body. body ≡ Annotation ids.now skip message.now) }
{
    Ok(EntryBody::Annotation {
        ids: ids.copy()?,
        skip,
        message: message.copy()?,
    })
}

// Adds an entry that annotates those of these ids to the log.
fn append_note<R: Keeper, D: Disk, C: Clock>(
    alloc: Global,
    ids: &Ids,
    skip: bool,
    message: &Octets,
    keeper: &mut R,
    disk: &mut D,
    clock: &mut C,
) -> Result<Appended, NotAppended>
    requires some { 0 < length ids.now }
    requires few { length ids.now ≤ 256 }
    ensures ends { NoteEnds R.Keeper D.Disk ids.now skip message.now (C.left clock.old) (C.left clock.new) keeper.old
        keeper.new disk.old disk.new result }
    ensures any_moment { LeavesOnly D.moment D.left_since disk.old disk.new (KeepsUsed (D.may_leave disk.old)) }
    ensures keeper { HasCause no_keeper (R.faults keeper.old) (R.faults keeper.new) result }
    ensures disk { HasCause no_disk (D.faults disk.old) (D.faults disk.new) result }
    ensures clock { HasCause no_clock (C.faults clock.old) (C.faults clock.new) result }
    ensures reads { R.reads keeper.new ≤ R.reads keeper.old + 1000000 }
{
    let Ok(body) = body_of(ids, skip, message) else {
        return Err(NotAppended::Unread {
            fault: ReadingFault::Memory,
        });
    };
    let opened = match open_log(alloc, keeper, disk) {
        Ok(opened) => opened,
        Err(fault) => return Err(NotAppended::Unread { fault }),
    };
    match append_entry(alloc, opened, body, keeper, disk, clock) {
        Ok(appended) => Ok(appended),
        Err(fault) => Err(NotAppended::Unappended { fault }),
    }
}

/// Adds an entry to the log that annotates those of 1 to 256 ids, which may be any, and prints its line: that they are
/// skipped, or just spoken of. It takes the memory for line and entry, reads the key file, then the log, asks the
/// clock, signs with the first unused leaf, commits once and prints; the first refusal decides.
pub fn annotate<K: Sink, R: Keeper, D: Disk, C: Clock>(
    alloc: Global,
    ids: &Ids,
    skip: bool,
    message: &Octets,
    sink: &mut K,
    keeper: &mut R,
    disk: &mut D,
    clock: &mut C,
) -> Result<(), RecordFault>
    requires some { 0 < length ids.now }
    requires few { length ids.now ≤ 256 }
    ensures ends { AnnotateEnds R.Keeper D.Disk ids.now skip message.now (C.left clock.old) (C.left clock.new)
        keeper.old keeper.new disk.old disk.new (K.contents sink.old) (K.contents sink.new) result }
    ensures any_moment { LeavesOnly D.moment D.left_since disk.old disk.new (KeepsUsed (D.may_leave disk.old)) }
    ensures sink { HasCause sink_failed (K.faults sink.old) (K.faults sink.new) result }
    ensures keeper { HasCause keeper_failed (R.faults keeper.old) (R.faults keeper.new) result }
    ensures disk { HasCause disk_failed (D.faults disk.old) (D.faults disk.new) result }
    ensures clock { HasCause clock_failed (C.faults clock.old) (C.faults clock.new) result }
    ensures reads { R.reads keeper.new ≤ R.reads keeper.old + 1000000 }
{
    let Ok(mut line) = Vec::with_capacity(alloc, LONGEST_LINE) else {
        return Err(RecordFault::Unread {
            fault: ReadingFault::Memory,
        });
    };
    let appended = match append_note(alloc, ids, skip, message, keeper, disk, clock) {
        Ok(appended) => appended,
        Err(NotAppended::Unread { fault }) => return Err(tell_unread(fault, line, sink)),
        Err(NotAppended::Unappended { fault }) => return Err(RecordFault::Unappended { fault }),
    };
    write_entry_line(&appended, &mut line);
    match write_all(sink, line.as_slice()) {
        Ok(()) => Ok(()),
        Err(Failed) => Err(RecordFault::SinkFailed),
    }
}
