//! Laws over the definitions of this crate: what a command comes to is determined by its words and the content.

ghost use Rattle.commands_keys.specs.Laws.{OneOfKeys, TellsOfKeys};
ghost use Rattle.commands_keys.specs.Runs.{TellsOfWorld};

use edge_io::Disk;
use worlds::{Kinds, Objects, Of};

/// Each command comes to one outcome at most for the same words and content.
pub fn one_of_keys()
    ensures { OneOfKeys }
{}

/// Where the disk tells its content, what ended is what the command comes to, unless it stopped for a fault or for
/// want of memory.
pub fn tells_of_keys<D: Disk>()
    ensures { TellsOfKeys D.Disk }
{}

/// Where the objects that a command touches tell their content, its ending is the one for that content, unless it
/// stopped for a fault or for want of memory.
pub fn keys_over_world<W: Objects>()
    ensures { TellsOfWorld ⟦<Of<W> as Objects>⟧.ways }
{
    tells_of_keys::<W::Disk>();
}
