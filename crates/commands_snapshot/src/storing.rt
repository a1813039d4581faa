//! Storing a snapshot: its commit, and one change of the store.

ghost use Rattle.std.specs.Prelude.{◌≡◌, ◌≤◌, ◌+◌, IfOk};
ghost use Rattle.octets.specs.Causes.{HasCause};
ghost use Rattle.keeper_api.specs.Faults as failed;
ghost use Rattle.commands_snapshot.specs.Storing.{CommitEnds, StoringEnds, clock_failed, keeper_failed, no_parent};
ghost use Rattle.commands_snapshot.specs.Storing.{snapshot_change, snapshot_commit};

use crate::making::Made;
use crate::parents::{ParentFault, read_parent};
use edge_io::{Clock, Failed};
use git_object::{Memory, Object, ObjectId, Objects, RefName};
use keeper_api::{Change, Keeper, KeeperFault, RefChange, RefChanges, commit_change};
use object_making::commit_object;
use octets::Copied;
use std::alloc::Global;

/// Why the objects of a listing were not stored.
#[derive(Clone, Copy, Debug, PartialEq, Eq)]
pub enum StoringFault {
    /// The reference, or the commit at which it stands, was not read. Nothing was changed.
    KeeperFailed,
    /// The reference stands at this id, at which there is no commit that can be read. Nothing was changed.
    NoCommit { id: ObjectId },
    /// The clock failed. Nothing was changed.
    ClockFailed,
    /// The commit failed. The store is as before or has the snapshot.
    CommitFailed,
    /// Nothing was changed.
    Memory,
}

// The change that adds these objects and a commit, and sets a reference to it.
fn change_of(
    alloc: Global,
    name: &RefName,
    mut objects: Objects,
    commit: Object,
) -> Result<Change, Memory>
    ensures { IfOk result (λ change. change ≡ snapshot_change name.now objects commit) }
{
    let change = RefChange {
        name: name.copied()?,
        to: Some(commit.id()),
    };
    let mut refs = RefChanges::new(alloc);
    refs.push(change)?;
    objects.push(commit)?;
    Ok(Change { objects, refs })
}

// Commits the objects that were made with a commit after this parent at these seconds.
fn commit_made<R: Keeper>(
    alloc: Global,
    name: &RefName,
    made: Made,
    parent: Option<ObjectId>,
    seconds: u64,
    keeper: &mut R,
) -> Result<ObjectId, KeeperFault>
    ensures ends { CommitEnds R.Keeper name.now made parent seconds keeper.old keeper.new result }
    ensures cause { HasCause failed.keeper_failed (R.faults keeper.old) (R.faults keeper.new) result }
    ensures reads { R.reads keeper.new ≡ R.reads keeper.old }
{
    let Made { objects, root } = made;
    let Ok(commit) = commit_object(alloc, root, parent, seconds, b"snapshot\n") else {
        return Err(KeeperFault::Memory);
    };
    let id = commit.id();
    let Ok(change) = change_of(alloc, name, objects, commit) else {
        return Err(KeeperFault::Memory);
    };
    match commit_change(alloc, &change, keeper) {
        Ok(()) => Ok(id),
        Err(KeeperFault::Failed) => Err(KeeperFault::Failed),
        Err(KeeperFault::Memory) => Err(KeeperFault::Memory),
    }
}

fn no_parent(fault: ParentFault) -> StoringFault
    ensures { result ≡ no_parent fault }
{
    match fault {
        ParentFault::Failed => StoringFault::KeeperFailed,
        ParentFault::NoCommit { id } => StoringFault::NoCommit { id },
        ParentFault::Memory => StoringFault::Memory,
    }
}

/// Stores the objects of a listing with a commit of their root, whose parent is the commit at which the reference
/// stands, if it is there, and sets the reference to it. Reads the reference, then asks the clock, then commits once.
pub fn store_snapshot<R: Keeper, C: Clock>(
    alloc: Global,
    name: &RefName,
    made: Made,
    keeper: &mut R,
    clock: &mut C,
) -> Result<ObjectId, StoringFault>
    ensures ends { StoringEnds R.Keeper name.now made (C.left clock.old) (C.left clock.new) keeper.old keeper.new
        result }
    ensures keeper { HasCause keeper_failed (R.faults keeper.old) (R.faults keeper.new) result }
    ensures clock { HasCause clock_failed (C.faults clock.old) (C.faults clock.new) result }
    ensures reads { R.reads keeper.new ≤ R.reads keeper.old + 1 }
{
    let parent = match read_parent(alloc, name, keeper) {
        Ok(parent) => parent,
        Err(fault) => return Err(no_parent(fault)),
    };
    let seconds = match clock.seconds() {
        Ok(seconds) => seconds,
        Err(Failed) => return Err(StoringFault::ClockFailed),
    };
    match commit_made(alloc, name, made, parent, seconds, keeper) {
        Ok(id) => Ok(id),
        Err(KeeperFault::Failed) => Err(StoringFault::CommitFailed),
        Err(KeeperFault::Memory) => Err(StoringFault::Memory),
    }
}
