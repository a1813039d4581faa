//! Laws over the definitions of this crate: what a command comes to is determined by its words and the content.

ghost use Rattle.commands_mirror.specs.Laws.{OneOfMirror, TellsOfMirror};
ghost use Rattle.commands_mirror.specs.Runs.{TellsOfWorld};

use clone_stream::laws::{one_refusal, one_spelling};
use evidence::laws::one_dossier;
use keeper_api::Keeper;
use mirror::laws::one_making;
use rsl_chain::laws::logs;
use worlds::{Kinds, Objects, Of};

/// Each command comes to one outcome at most for the same content.
pub fn one_of_mirror()
    ensures { OneOfMirror }
{
    one_spelling();
    one_refusal();
    one_making();
    one_dossier();
    logs();
}

/// Where source and store tell their content, what ended is what the command comes to, unless it stopped for a fault or
/// for want of memory.
pub fn tells_of_mirror<R: Keeper>()
    ensures { TellsOfMirror R.Keeper }
{}

/// Where the objects that a command touches tell their content, its ending is the one for that content, unless it
/// stopped for a fault or for want of memory.
pub fn mirror_over_world<W: Objects>()
    ensures { TellsOfWorld ⟦<Of<W> as Objects>⟧.ways }
{
    tells_of_mirror::<W::Keeper>();
}
