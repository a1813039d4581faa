//! Laws over the definitions of this crate. No call needs these functions: their contracts are the laws.

ghost use Rattle.commands_desk.specs.Laws.{OneOfServe};
ghost use Rattle.commands_desk.specs.Runs.{TellsOfWorld};

use rsl_chain::laws::logs;
use worlds::{Kinds, Objects, Of};

/// `serve` comes to one outcome at most for the same repository.
pub fn one_of_serve()
    ensures { OneOfServe }
{
    logs();
}

/// Where the objects that the command touches tell their content, its ending is the one for that content, unless it
/// stopped for a fault or for want of memory.
pub fn serve_over_world<W: Objects>()
    ensures { TellsOfWorld ⟦<Of<W> as Objects>⟧.ways }
{}
