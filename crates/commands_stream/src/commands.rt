//! The commands over the objects outside.

ghost use Rattle.std.specs.Prelude.{◌≡◌};
ghost use Rattle.worlds.specs.Given.{world_of};
ghost use Rattle.commands_stream.specs.Runs.{ExportRuns, ImportRuns};

use crate::exporting::export_ending;
use crate::importing::import_ending;
use crate::{exporting, importing};
use std::alloc::Global;
use worlds::{Ending, Kinds, Lent, Objects, Of};

/// Takes the source's stream into the empty store, and says so. Nothing is printed where none was taken.
pub fn import<W: Objects>(alloc: Global, outside: &mut Lent<W>) -> Ending
    ensures runs { ImportRuns ⟦<Of<W> as Objects>⟧.ways (world_of outside.old) (world_of outside.new) result }
    ensures unsaid { outside.new.faults_out ≡ outside.old.faults_out }
{
    let outcome = importing::import(
        alloc,
        &mut outside.source,
        &mut outside.sink,
        &mut outside.keeper,
    );
    import_ending(&outcome)
}

/// Prints the stream of the store's repository. After a refusal a front of the stream was printed.
pub fn export<W: Objects>(alloc: Global, outside: &mut Lent<W>) -> Ending
    ensures runs { ExportRuns ⟦<Of<W> as Objects>⟧.ways (world_of outside.old) (world_of outside.new) result }
    ensures unsaid { outside.new.faults_out ≡ outside.old.faults_out }
{
    let outcome = exporting::export(alloc, &mut outside.sink, &mut outside.keeper);
    export_ending(&outcome)
}
