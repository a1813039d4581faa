//! The command `approve`.

ghost use Rattle.std.specs.Prelude.{◌≡◌, ◌≤◌, [], OnOk};
ghost use Rattle.std.specs.Vec.{vec_capacity};
ghost use Rattle.octets.specs.Causes.{HasCause};
ghost use Rattle.octets.specs.Content.{Told};
ghost use Rattle.edge_io.specs.Moments.{LeavesOnly};
ghost use Rattle.leaf_journal.specs.KeyFile.{KeepsUsed};
ghost use Rattle.commands_approve.specs.Approving.{ApproveEnds, TellsRefusal, clock_failed, disk_failed, keeper_failed};
ghost use Rattle.commands_approve.specs.Approving.{sink_failed, untold};
ghost use Rattle.commands_approve.specs.Reads.{ReadsFew};

use crate::keeping::{NotApproved, keep_approval};
use crate::lines::{LONGEST_LINE, write_approval_line};
use edge_io::{Clock, Disk, Failed, Sink, write_all};
use git_object::{ObjectId, RefName};
use keeper_api::Keeper;
use log_appending::{AppendFault, ReadingFault, RecordFault, tell_unread};
use std::alloc::Global;

/// Why no approval was kept, or why that was not told.
#[derive(Clone, Copy, Debug, PartialEq, Eq)]
pub enum ApproveFault {
    /// The key file or the store was not read, or all was read, and no approval was kept or told: it is an entry here.
    Unrecorded { fault: RecordFault },
    /// This object of the target is not readable, or it is in the way of the approval's place. Nothing changed.
    Unreadable { id: ObjectId },
    /// The approval has 64 signatures, and none is of the key. Nothing changed.
    Full,
    /// With a signature of the key the approval's text would have more than 1 MiB. Nothing changed.
    TooLong,
}

fn unrecorded(fault: RecordFault) -> ApproveFault
    ensures { result ≡ ApproveFault.Unrecorded fault }
{
    ApproveFault::Unrecorded { fault }
}

// Tells why no approval is kept, where that is told here: of a broken log with the line of its break.
fn tell_refusal<K: Sink>(why: NotApproved, line: Vec<u8>, sink: &mut K) -> ApproveFault
    requires empty { line.items ≡ [] }
    requires room { 92 ≤ vec_capacity line }
    ensures tells { TellsRefusal (K.contents sink.old) (K.contents sink.new) why result }
    ensures sink { HasCause sink_failed (K.faults sink.old) (K.faults sink.new) (untold result) }
{
    match why {
        NotApproved::Unread { fault } => unrecorded(tell_unread(fault, line, sink)),
        NotApproved::Unreadable { id } => ApproveFault::Unreadable { id },
        NotApproved::Full => ApproveFault::Full,
        NotApproved::TooLong => ApproveFault::TooLong,
        NotApproved::Unappended { fault } => unrecorded(RecordFault::Unappended { fault }),
    }
}

/// Adds the key's signature to the approval of a reference, from where it stands behind the log to the tree of a target
/// (zeros are nothing), keeps it among the attestations, whose reference then stands at a new commit, and prints its
/// line. The signature stands in place of the key's old one, or else last; all other files of the attestations stay. It
/// reads the key file, then the log, then the target, the policies, and the approval under the attestations' value,
/// asks the clock, signs with the first unused leaf, commits once and prints; the first refusal decides. The memory for
/// the line is taken before anything is read. Each entry of the log is read twice and judged; the target's state, the
/// approval and its place are read once.
pub fn approve<K: Sink, R: Keeper, D: Disk, C: Clock>(
    alloc: Global,
    name: &RefName,
    target: &ObjectId,
    sink: &mut K,
    keeper: &mut R,
    disk: &mut D,
    clock: &mut C,
) -> Result<(), ApproveFault>
    ensures ends { ApproveEnds R.Keeper D.Disk name.now target.now (C.left clock.old) (C.left clock.new) keeper.old
        keeper.new disk.old disk.new (K.contents sink.old) (K.contents sink.new) result }
    ensures any_moment { LeavesOnly D.moment D.left_since disk.old disk.new (KeepsUsed (D.may_leave disk.old)) }
    ensures sink { HasCause sink_failed (K.faults sink.old) (K.faults sink.new) result }
    ensures keeper { HasCause keeper_failed (R.faults keeper.old) (R.faults keeper.new) result }
    ensures disk { HasCause disk_failed (D.faults disk.old) (D.faults disk.new) result }
    ensures clock { HasCause clock_failed (C.faults clock.old) (C.faults clock.new) result }
    ensures reads { OnOk result (Told (λ r now. ReadsFew r target.now (R.reads keeper.old) (R.reads keeper.new))
        (R.content keeper.old) (R.content keeper.new)) }
{
    let Ok(mut line) = Vec::with_capacity(alloc, LONGEST_LINE) else {
        return Err(unrecorded(RecordFault::Unread {
            fault: ReadingFault::Memory,
        }));
    };
    let ends = match keep_approval(alloc, name, target, keeper, disk, clock) {
        Ok(ends) => ends,
        Err(why) => return Err(tell_refusal(why, line, sink)),
    };
    write_approval_line(&ends, &mut line);
    match write_all(sink, line.as_slice()) {
        Ok(()) => Ok(()),
        Err(Failed) => Err(ApproveFault::Unrecorded {
            fault: RecordFault::SinkFailed,
        }),
    }
}
