//! Laws over the definitions of this crate. No call needs these functions: their contracts are the laws.

ghost use Rattle.commands_desk.specs.Contents.{OneOfPush};
ghost use Rattle.commands_desk.specs.PushRuns.{TellsOfWorld};

use desk_messages::client_laws::{one_cause, one_reading};
use pushes::making_laws::one_making;
use rsl_chain::laws::logs;
use worlds::{Kinds, Objects, Of};

/// `push` comes to one outcome at most for the same repository, number and answer.
pub fn one_of_push()
    ensures { OneOfPush }
{
    logs();
    one_making();
    one_reading();
    one_cause();
}

/// Where the objects that the command touches tell their content, its ending is the one for that content, unless it
/// stopped for a fault or for want of memory.
pub fn push_over_world<W: Objects>()
    ensures { TellsOfWorld ⟦<Of<W> as Objects>⟧.ways }
{}
