//! Laws over the definitions of this crate: what a command comes to is determined by its words and the content.

ghost use Rattle.commands_verify.specs.Laws.{OneOfVerify, TellsOfVerify};
ghost use Rattle.commands_verify.specs.Runs.{TellsOfWorld};

use clone_stream::laws::{one_refusal, one_spelling};
use keeper_api::Keeper;
use rsl_chain::laws::logs;
use worlds::{Kinds, Objects, Of};

/// The command comes to one outcome at most for the same words and content.
pub fn one_of_verify()
    ensures { OneOfVerify }
{
    one_spelling();
    one_refusal();
    logs();
}

/// Where source and store tell their content, what ended is what the command comes to, unless it stopped for a
/// fault or for want of memory.
pub fn tells_of_verify<R: Keeper>()
    ensures { TellsOfVerify R.Keeper }
{}

/// Where the objects that the command touches tell their content, its ending is the one for that content, unless it
/// stopped for a fault or for want of memory.
pub fn verify_over_world<W: Objects>()
    ensures { TellsOfWorld ⟦<Of<W> as Objects>⟧.ways }
{
    tells_of_verify::<W::Keeper>();
}
