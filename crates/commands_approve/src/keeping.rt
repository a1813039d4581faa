//! Reading, signing and keeping an approval, before anything is printed.

ghost use Rattle.std.specs.Prelude.{◌≡◌, OnOk};
ghost use Rattle.octets.specs.Causes.{HasCause};
ghost use Rattle.octets.specs.Content.{Told};
ghost use Rattle.edge_io.specs.Moments.{LeavesOnly};
ghost use Rattle.leaf_journal.specs.KeyFile.{KeepsUsed};
ghost use Rattle.commands_approve.specs.Approving.{KeptEnds, no_clock, no_disk, no_keeper, not_kept};
ghost use Rattle.commands_approve.specs.Reads.{ReadsFew};

use crate::ends::{Ends, NotWanted};
use crate::preparing::prepare;
use crate::storing::store_approval;
use edge_io::{Clock, Disk};
use git_object::{ObjectId, RefName};
use keeper_api::Keeper;
use log_appending::{AppendFault, OpenLog, ReadingFault, open_whole_log, unread_log};
use std::alloc::Global;

/// Why no approval is kept.
#[derive(Clone, Copy, Debug, PartialEq, Eq)]
pub enum NotApproved {
    /// What is wanted was not read.
    Unread { fault: ReadingFault },
    /// This object is not readable, or in the way.
    Unreadable { id: ObjectId },
    /// The approval has 64 signatures, and none is of the key.
    Full,
    /// With a signature of the key the approval's text would have more than 1 MiB.
    TooLong,
    /// All was read; an approval that is kept is an entry here.
    Unappended { fault: AppendFault },
}

fn not_kept(why: NotWanted) -> NotApproved
    ensures { result ≡ not_kept why }
{
    match why {
        NotWanted::Log { fault } => NotApproved::Unread {
            fault: unread_log(fault),
        },
        NotWanted::Unreadable { id } => NotApproved::Unreadable { id },
        NotWanted::Full => NotApproved::Full,
        NotWanted::TooLong => NotApproved::TooLong,
    }
}

/// Adds a key's signature to the approval of a reference, from where it stands behind the log to the tree of a target.
pub fn keep_approval<R: Keeper, D: Disk, C: Clock>(
    alloc: Global,
    name: &RefName,
    target: &ObjectId,
    keeper: &mut R,
    disk: &mut D,
    clock: &mut C,
) -> Result<Ends, NotApproved>
    ensures ends { KeptEnds R.Keeper D.Disk name.now target.now (C.left clock.old) (C.left clock.new) keeper.old
        keeper.new disk.old disk.new result }
    ensures any_moment { LeavesOnly D.moment D.left_since disk.old disk.new (KeepsUsed (D.may_leave disk.old)) }
    ensures keeper { HasCause no_keeper (R.faults keeper.old) (R.faults keeper.new) result }
    ensures disk { HasCause no_disk (D.faults disk.old) (D.faults disk.new) result }
    ensures clock { HasCause no_clock (C.faults clock.old) (C.faults clock.new) result }
    ensures reads { OnOk result (Told (λ r now. ReadsFew r target.now (R.reads keeper.old) (R.reads keeper.new))
        (R.content keeper.old) (R.content keeper.new)) }
{
    let opened = match open_whole_log(alloc, keeper, disk) {
        Ok(opened) => opened,
        Err(fault) => return Err(NotApproved::Unread { fault }),
    };
    let prepared = match prepare(alloc, name, target, &opened, keeper) {
        Ok(prepared) => prepared,
        Err(why) => return Err(not_kept(why)),
    };
    let OpenLog { key, log: _ } = opened;
    match store_approval(alloc, key, name, prepared, keeper, disk, clock) {
        Ok(ends) => Ok(ends),
        Err(fault) => Err(NotApproved::Unappended { fault }),
    }
}
