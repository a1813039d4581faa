//! The command over the objects outside.

ghost use Rattle.std.specs.Prelude.{◌≡◌};
ghost use Rattle.worlds.specs.Given.{world_of};
ghost use Rattle.commands_verify.specs.Runs.{VerifyRuns};

use crate::verifying;
use crate::verifying::verify_ending;
use git_object::{KeyId, RefName};
use octets::Items;
use std::alloc::Global;
use worlds::{Ending, Kinds, Lent, Objects, Of};

/// Opens the repository - the source's stream where `stdin` asks for it, else what the store holds -, judges the
/// reference, and prints the verdict's line, or the line that says at which commit the log breaks. Where ids of keys
/// are given, the first policy must have exactly these.
pub fn verify_ref<W: Objects>(
    alloc: Global,
    name: &RefName,
    root: &Option<Items<KeyId>>,
    stdin: bool,
    outside: &mut Lent<W>,
) -> Ending
    ensures runs { VerifyRuns ⟦<Of<W> as Objects>⟧.ways name.now root.now stdin
        (world_of outside.old) (world_of outside.new) result }
    ensures unsaid { outside.new.faults_out ≡ outside.old.faults_out }
{
    let outcome = verifying::verify_ref(
        alloc,
        name,
        root,
        stdin,
        &mut outside.source,
        &mut outside.sink,
        &mut outside.keeper,
    );
    verify_ending(&outcome)
}
