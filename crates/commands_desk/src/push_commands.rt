//! The command over the objects outside.

ghost use Rattle.std.specs.Prelude.{◌≡◌};
ghost use Rattle.worlds.specs.Given.{world_of};
ghost use Rattle.commands_desk.specs.PushRuns.{PushRuns};

use crate::faults::push_ending;
use crate::pushing;
use std::alloc::Global;
use worlds::{Ending, Kinds, Lent, Objects, Of};

/// Sends the entry of a number of the store's log to the desk at a port, and prints the body of its reply, or that it
/// gave none, or the line that names where the log breaks. The store is as before.
pub fn push<W: Objects>(alloc: Global, port: u16, number: u64, outside: &mut Lent<W>) -> Ending
    ensures runs { PushRuns ⟦<Of<W> as Objects>⟧.ways port number (world_of outside.old) (world_of outside.new) result }
    ensures unsaid { outside.new.faults_out ≡ outside.old.faults_out }
{
    let outcome = pushing::push(
        alloc,
        port,
        number,
        &mut outside.sink,
        &mut outside.keeper,
        &mut outside.peer,
    );
    push_ending(&outcome)
}
