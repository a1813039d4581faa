//! The command over the objects outside.

ghost use Rattle.std.specs.Prelude.{◌≡◌};
ghost use Rattle.worlds.specs.Given.{world_of};
ghost use Rattle.commands_snapshot.specs.Runs.{SnapshotRuns};

use crate::outcomes::snapshot_ending;
use crate::snapshots;
use git_object::RefName;
use std::alloc::Global;
use worlds::{Ending, Kinds, Lent, Objects, Of};

/// Makes a commit of the listing that the source gives, with the commit at which the reference stands as its only
/// parent, if it is there, sets the reference to it, and prints its line.
pub fn snapshot<W: Objects>(alloc: Global, name: &RefName, outside: &mut Lent<W>) -> Ending
    ensures runs { SnapshotRuns ⟦<Of<W> as Objects>⟧.ways name.now
        (world_of outside.old) (world_of outside.new) result }
    ensures unsaid { outside.new.faults_out ≡ outside.old.faults_out }
{
    let outcome = snapshots::snapshot(
        alloc,
        name,
        &mut outside.source,
        &mut outside.sink,
        &mut outside.keeper,
        &mut outside.clock,
    );
    snapshot_ending(&outcome)
}
