//! Opening the repository that is judged.

ghost use Rattle.std.specs.Prelude.{◌≡◌, ◌≤◌, IfErr, OnOk, false};
ghost use Rattle.worlds.specs.Counts.{Faults, IsCounted};
ghost use Rattle.commands_stream.specs.Taking.{DeclinesOpening, Opens, take_ending};

use crate::taking::{TakeFault, take};
use edge_io::Source;
use keeper_api::Keeper;
use std::alloc::Global;

/// Opens the repository to be judged: the source's stream where that is asked for, else what the keeper holds.
pub fn open<S: Source, R: Keeper>(
    alloc: Global,
    stdin: bool,
    source: &mut S,
    keeper: &mut R,
) -> Result<(), TakeFault>
    ensures opens { OnOk result (Opens stdin R.Keeper (S.left source.old) (S.left source.new) keeper.old keeper.new) }
    ensures declines { IfErr result
        (DeclinesOpening stdin R.Keeper (S.left source.old) (S.left source.new) keeper.old keeper.new) }
    ensures unread { stdin ≡ false → source.new ≡ source.old }
    ensures counted { (rest : Faults) → IsCounted (take_ending result)
        (record rest { source = S.faults source.old; keeper = R.faults keeper.old })
        (record rest { source = S.faults source.new; keeper = R.faults keeper.new }) }
    ensures reads { R.reads keeper.new ≡ R.reads keeper.old }
{
    if !stdin {
        return Ok(());
    }
    take(alloc, source, keeper)
}
