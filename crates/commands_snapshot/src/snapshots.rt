//! The command `snapshot`.

ghost use Rattle.std.specs.Prelude.{◌≡◌, ◌≤◌, ◌+◌, ◌++◌, [], length};
ghost use Rattle.std.specs.Vec.{vec_capacity};
ghost use Rattle.octets.specs.Causes.{HasCause};
ghost use Rattle.worlds.specs.Counts.{Faults, IsCounted};
ghost use Rattle.commands_snapshot.specs.Snapshots.{SnapshotEnds, StoredEnds, commit_line, snapshot_ending};
ghost use Rattle.commands_snapshot.specs.Causes.{clock_failed, keeper_failed, source_failed};

use crate::making::{InputFault, take_listing};
use crate::storing::{StoringFault, store_snapshot};
use edge_io::{Clock, Failed, Sink, Source, write_all};
use git_object::{ObjectId, RefName};
use keeper_api::Keeper;
use std::alloc::Global;

/// Why no snapshot was stored, or why that was not told.
#[derive(Clone, Copy, Debug, PartialEq, Eq)]
pub enum SnapshotFault {
    /// Nothing was made of what the source gave. The store was not looked at.
    Untaken { fault: InputFault },
    /// The objects of the listing were made, and not stored.
    Unstored { fault: StoringFault },
    /// The snapshot was stored, and could not be told.
    SinkFailed,
}

/// The bytes of the line.
const COMMIT_LINE: usize = 72;

// Adds bytes, for which there is room.
fn append(line: &mut Vec<u8>, bytes: &[u8])
    requires { length line.old.items + length bytes.now ≤ vec_capacity line.old }
    ensures added { line.new.items ≡ line.old.items ++ bytes.now }
    ensures room { vec_capacity line.old ≤ vec_capacity line.new }
{
    match line.extend_from_slice(bytes) {
        Ok(()) => {}
        Err(_) => unreachable!(),
    }
}

// Writes the line that tells a commit: `commit `, its id as lower-case hexadecimal digits, and a line feed.
fn write_commit_line(id: &ObjectId, line: &mut Vec<u8>)
    requires empty { line.old.items ≡ [] }
    requires room { 72 ≤ vec_capacity line.old }
    ensures { line.new.items ≡ commit_line id.now }
{
    append(line, b"commit ");
    append(line, &id.to_hex());
    append(line, b"\n");
}

// Makes and stores the listing that the source gives.
fn take_snapshot<S: Source, R: Keeper, C: Clock>(
    alloc: Global,
    name: &RefName,
    source: &mut S,
    keeper: &mut R,
    clock: &mut C,
) -> Result<ObjectId, SnapshotFault>
    ensures ends { StoredEnds R.Keeper name.now (S.left source.old) (S.left source.new) (C.left clock.old)
        (C.left clock.new) keeper.old keeper.new result }
    ensures source { HasCause source_failed (S.faults source.old) (S.faults source.new) result }
    ensures keeper { HasCause keeper_failed (R.faults keeper.old) (R.faults keeper.new) result }
    ensures clock { HasCause clock_failed (C.faults clock.old) (C.faults clock.new) result }
    ensures reads { R.reads keeper.new ≤ R.reads keeper.old + 1 }
{
    let made = match take_listing(alloc, source) {
        Ok(made) => made,
        Err(fault) => return Err(SnapshotFault::Untaken { fault }),
    };
    match store_snapshot(alloc, name, made, keeper, clock) {
        Ok(id) => Ok(id),
        Err(fault) => Err(SnapshotFault::Unstored { fault }),
    }
}

/// Makes a commit of the listing that the source gives, with the commit at which the reference stands as its only
/// parent, if it is there, sets the reference to it, and prints its line. The new objects are the listing's blobs, the
/// trees and the commit. The source is read to its end first, then the reference, then the clock is asked, and one
/// change is committed; the first refusal decides. The memory for the line is taken before anything is read. At most
/// one object is read, the commit at which the reference stands.
pub fn snapshot<S: Source, K: Sink, R: Keeper, C: Clock>(
    alloc: Global,
    name: &RefName,
    source: &mut S,
    sink: &mut K,
    keeper: &mut R,
    clock: &mut C,
) -> Result<(), SnapshotFault>
    ensures ends { SnapshotEnds R.Keeper name.now (S.left source.old) (S.left source.new) (C.left clock.old)
        (C.left clock.new) keeper.old keeper.new (K.contents sink.old) (K.contents sink.new) result }
    ensures counted { (rest : Faults) → IsCounted (snapshot_ending result)
        (record rest { source = S.faults source.old; sink = K.faults sink.old; keeper = R.faults keeper.old; clock = C.faults clock.old })
        (record rest { source = S.faults source.new; sink = K.faults sink.new; keeper = R.faults keeper.new; clock = C.faults clock.new }) }
    ensures reads { R.reads keeper.new ≤ R.reads keeper.old + 1 }
{
    let Ok(mut line) = Vec::with_capacity(alloc, COMMIT_LINE) else {
        return Err(SnapshotFault::Untaken {
            fault: InputFault::Memory,
        });
    };
    let id = match take_snapshot(alloc, name, source, keeper, clock) {
        Ok(id) => id,
        Err(SnapshotFault::Untaken { fault }) => return Err(SnapshotFault::Untaken { fault }),
        Err(SnapshotFault::Unstored { fault }) => return Err(SnapshotFault::Unstored { fault }),
        Err(SnapshotFault::SinkFailed) => unreachable!(),
    };
    write_commit_line(&id, &mut line);
    match write_all(sink, line.as_slice()) {
        Ok(()) => Ok(()),
        Err(Failed) => Err(SnapshotFault::SinkFailed),
    }
}
