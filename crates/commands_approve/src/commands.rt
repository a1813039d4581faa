//! The command over the objects outside.

ghost use Rattle.std.specs.Prelude.{◌≡◌};
ghost use Rattle.worlds.specs.Given.{world_of};
ghost use Rattle.commands_approve.specs.Runs.{ApproveRuns};

use crate::approving;
use crate::outcomes::approve_ending;
use git_object::{ObjectId, RefName};
use std::alloc::Global;
use worlds::{Ending, Kinds, Lent, Objects, Of};

/// Adds the key's signature to the approval of a reference, from where it stands behind the log to the tree of a target
/// (zeros are nothing), keeps it among the attestations, whose reference then stands at a new commit, and prints its
/// line.
pub fn approve<W: Objects>(
    alloc: Global,
    name: &RefName,
    target: &ObjectId,
    outside: &mut Lent<W>,
) -> Ending
    ensures runs { ApproveRuns ⟦<Of<W> as Objects>⟧.ways name.now target.now
        (world_of outside.old) (world_of outside.new) result }
    ensures unsaid { outside.new.faults_out ≡ outside.old.faults_out }
{
    let outcome = approving::approve(
        alloc,
        name,
        target,
        &mut outside.sink,
        &mut outside.keeper,
        &mut outside.disk,
        &mut outside.clock,
    );
    approve_ending(&outcome)
}
