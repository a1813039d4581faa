//! The command over the objects outside.

ghost use Rattle.std.specs.Prelude.{◌≡◌};
ghost use Rattle.worlds.specs.Given.{world_of};
ghost use Rattle.commands_verify.specs.GlobalRuns.{GlobalRuns};

use crate::global_verifying;
use crate::global_verifying::global_ending;
use git_object::{KeyId, RefName};
use octets::Items;
use std::alloc::Global;
use worlds::{Ending, Kinds, Lent, Objects, Of};

/// Judges a reference of what the store holds by the global rules of the policies of its log, and prints the verdict's
/// line, or the line that says at which commit the log breaks. Where ids of keys are given, the first policy must have
/// exactly these.
pub fn verify_global<W: Objects>(
    alloc: Global,
    name: &RefName,
    root: &Option<Items<KeyId>>,
    outside: &mut Lent<W>,
) -> Ending
    ensures runs { GlobalRuns ⟦<Of<W> as Objects>⟧.ways name.now root.now
        (world_of outside.old) (world_of outside.new) result }
    ensures unsaid { outside.new.faults_out ≡ outside.old.faults_out }
{
    let outcome = global_verifying::verify_global(
        alloc,
        name,
        root,
        &mut outside.sink,
        &mut outside.keeper,
    );
    global_ending(&outcome)
}
