//! The command over the objects outside.

ghost use Rattle.std.specs.Prelude.{◌≡◌, ◌≤◌};
ghost use Rattle.worlds.specs.Given.{world_of};
ghost use Rattle.demo.specs.Runs.{DemoRuns};

use crate::running;
use crate::running::demo_ending;
use std::alloc::Global;
use worlds::{Ending, Kinds, Lent, Objects, Of};

/// Makes the repository of a demonstration of so many changes, 1 to 500, in a store that holds nothing, by one commit,
/// judges its branch by the log, and prints how many changes there are and the verdict's line; or the line that says at
/// which commit the log breaks.
pub fn demo<W: Objects>(alloc: Global, count: u32, outside: &mut Lent<W>) -> Ending
    requires { count ≤ 500 }
    ensures runs { DemoRuns ⟦<Of<W> as Objects>⟧.ways count (world_of outside.old) (world_of outside.new) result }
    ensures unsaid { outside.new.faults_out ≡ outside.old.faults_out }
{
    let outcome = running::demo(alloc, count, &mut outside.sink, &mut outside.keeper);
    demo_ending(&outcome)
}
