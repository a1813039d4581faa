//! Laws over the definitions of this crate: what a command comes to is determined by its words and the content.

ghost use Rattle.commands_stream.specs.Laws.{OneOfStream, TellsOfStream};
ghost use Rattle.commands_stream.specs.Runs.{TellsOfWorld};

use clone_stream::laws::{one_export, one_refusal, one_spelling};
use keeper_api::Keeper;
use worlds::{Kinds, Objects, Of};

/// Each command comes to one outcome at most for the same content.
pub fn one_of_stream()
    ensures { OneOfStream }
{
    one_spelling();
    one_refusal();
    one_export();
}

/// Where source and store tell their content, what ended is what the command comes to, unless it stopped for a
/// fault or for want of memory.
pub fn tells_of_stream<R: Keeper>()
    ensures { TellsOfStream R.Keeper }
{}

/// Where the objects that a command touches tell their content, its ending is the one for that content, unless it
/// stopped for a fault or for want of memory.
pub fn stream_over_world<W: Objects>()
    ensures { TellsOfWorld ⟦<Of<W> as Objects>⟧.ways }
{
    tells_of_stream::<W::Keeper>();
}
