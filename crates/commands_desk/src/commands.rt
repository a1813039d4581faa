//! The command over the objects outside.

ghost use Rattle.std.specs.Prelude.{◌≡◌};
ghost use Rattle.worlds.specs.Given.{world_of};
ghost use Rattle.commands_desk.specs.Runs.{ServeRuns};

use crate::readying;
use crate::readying::serve_ending;
use std::alloc::Global;
use worlds::{Ending, Kinds, Lent, Objects, Of};

/// Loads the log of the store, and prints how many entries a desk over it begins with, or the line that names where the
/// log breaks. The store is as before.
pub fn serve<W: Objects>(alloc: Global, outside: &mut Lent<W>) -> Ending
    ensures runs { ServeRuns ⟦<Of<W> as Objects>⟧.ways (world_of outside.old) (world_of outside.new) result }
    ensures unsaid { outside.new.faults_out ≡ outside.old.faults_out }
{
    let outcome = readying::serve(alloc, &mut outside.sink, &mut outside.keeper);
    serve_ending(&outcome)
}
