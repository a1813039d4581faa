//! Adding a signed entry to the log: the step that all commands share which do so.

ghost use Rattle.std.specs.Prelude.{◌≡◌, ◌<◌, ℕ, List, length, Some};
ghost use Rattle.octets.specs.Causes.{HasCause};
ghost use Rattle.edge_io.specs.Moments.{LeavesOnly};
ghost use Rattle.leaf_journal.specs.KeyFile.{KeepsUsed};
ghost use Rattle.leaf_journal.specs.Signing.{IsLoaded};
ghost use Rattle.lms_keys.specs.HssSecret.{signature_len};
ghost use Rattle.rsl_chain.specs.Drafts.{IsBody, IsDraft};
ghost use Rattle.log_appending.specs.Appending.{AppendEnds, DraftEnds};
ghost use Rattle.log_appending.specs.Signing.{clock_failed, commit_failed, disk_failed};

use crate::OpenLog;
use crate::committing::commit_text;
use crate::drafting::draft_entry;
use crate::signing::sign_draft;
use edge_io::{Clock, Disk};
use git_object::ObjectId;
use keeper_api::{Keeper, KeeperFault};
use leaf_journal::OpenKey;
use rsl_chain::{Draft, EntryBody};
use std::alloc::Global;

/// Why no entry was added to a log that was read.
#[derive(Clone, Copy, Debug, PartialEq, Eq)]
pub enum AppendFault {
    /// The clock failed. Nothing was signed.
    ClockFailed,
    /// Each leaf of the key file is used. Nothing was signed.
    Exhausted,
    /// The disk failed. The byte of the first unused leaf may be any.
    DiskFailed,
    /// The commit failed. The leaf is used, and the store is as before or has the entry.
    CommitFailed,
    /// Memory was wanting before anything was signed.
    Memory,
    /// Memory was wanting behind the signature. The leaf is used, and the store is as before.
    MemoryAfter,
}

/// An entry that was added: its number in the log, counted from 1, and the id of its commit.
#[derive(Clone, Copy, Debug, PartialEq, Eq)]
pub struct Appended {
    pub number: u64,
    pub id: ObjectId,
}

// Signs a draft, and commits its entry.
fn append_draft<R: Keeper, D: Disk>(
    alloc: Global,
    key: OpenKey,
    draft: &Draft,
    keeper: &mut R,
    disk: &mut D,
) -> Result<ObjectId, AppendFault>
    requires loaded { (file : List ℕ) → D.seen disk.old ≡ Some file → IsLoaded file key.signer }
    requires room { length key.room.items ≡ signature_len key.signer.secret }
    requires draft { IsDraft draft.now }
    ensures ends { DraftEnds R.Keeper D.Disk key.signer.secret keeper.old keeper.new disk.old disk.new draft.now result }
    ensures any_moment { LeavesOnly D.moment D.left_since disk.old disk.new (KeepsUsed (D.may_leave disk.old)) }
    ensures keeper { HasCause commit_failed (R.faults keeper.old) (R.faults keeper.new) result }
    ensures disk { HasCause disk_failed (D.faults disk.old) (D.faults disk.new) result }
    ensures reads { R.reads keeper.new ≡ R.reads keeper.old }
{
    let text = match sign_draft(alloc, key, draft, disk) {
        Ok(text) => text,
        Err(fault) => return Err(fault),
    };
    match commit_text(alloc, text, keeper) {
        Ok(id) => Ok(id),
        Err(KeeperFault::Failed) => Err(AppendFault::CommitFailed),
        Err(KeeperFault::Memory) => Err(AppendFault::MemoryAfter),
    }
}

/// Adds an entry of this body to the log that is open: asks the clock, drafts the entry after the log's last, signs it
/// with the first unused leaf of the key file, and commits it with the log's reference at it. Disk and store have to be
/// as they were when the log was opened.
///
/// `ClockFailed` comes before anything else, then `Exhausted` exactly where each leaf is used.
pub fn append_entry<R: Keeper, D: Disk, C: Clock>(
    alloc: Global,
    opened: OpenLog,
    body: EntryBody,
    keeper: &mut R,
    disk: &mut D,
    clock: &mut C,
) -> Result<Appended, AppendFault>
    requires loaded { (file : List ℕ) → D.seen disk.old ≡ Some file → IsLoaded file opened.key.signer }
    requires room { length opened.key.room.items ≡ signature_len opened.key.signer.secret }
    requires short { length opened.log.ids < 1000000 }
    requires body { IsBody body }
    ensures ends { AppendEnds R.Keeper D.Disk opened.key.signer.secret keeper.old keeper.new disk.old disk.new
        opened.log.ids body (C.left clock.old) (C.left clock.new) result }
    ensures any_moment { LeavesOnly D.moment D.left_since disk.old disk.new (KeepsUsed (D.may_leave disk.old)) }
    ensures keeper { HasCause commit_failed (R.faults keeper.old) (R.faults keeper.new) result }
    ensures disk { HasCause disk_failed (D.faults disk.old) (D.faults disk.new) result }
    ensures clock { HasCause clock_failed (C.faults clock.old) (C.faults clock.new) result }
    ensures reads { R.reads keeper.new ≡ R.reads keeper.old }
{
    let OpenLog { key, log } = opened;
    let draft = match draft_entry(alloc, &log, body, clock) {
        Ok(draft) => draft,
        Err(fault) => return Err(fault),
    };
    match append_draft(alloc, key, &draft, keeper, disk) {
        Ok(id) => Ok(Appended {
            number: draft.number,
            id,
        }),
        Err(fault) => Err(fault),
    }
}
