//! Laws over the definitions of this crate: what the command comes to is determined by its words and the content.

ghost use Rattle.commands_verify.specs.GlobalLaws.{OneOfGlobal, TellsOfGlobal};
ghost use Rattle.commands_verify.specs.GlobalRuns.{TellsOfWorld};

use rsl_chain::laws::logs;
use worlds::{Kinds, Objects, Of};

/// The command comes to one outcome at most for the same words and content.
pub fn one_of_global()
    ensures { OneOfGlobal }
{
    logs();
}

/// Where the store tells its content, what ended is what the command comes to, unless it stopped for a fault or for
/// want of memory.
pub fn tells_of_global()
    ensures { TellsOfGlobal }
{}

/// Where the objects that the command touches tell their content, its ending is the one for that content, unless it
/// stopped for a fault or for want of memory.
pub fn global_over_world<W: Objects>()
    ensures { TellsOfWorld ⟦<Of<W> as Objects>⟧.ways }
{
    tells_of_global();
}
