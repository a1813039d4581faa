//! Laws over the definitions of this crate. No call needs these functions: their contracts are the laws.

ghost use Rattle.commands_log.specs.Laws.{CountsFromOne, OneOfHistory, TellsOfHistory};
ghost use Rattle.commands_log.specs.Runs.{TellsOfWorld};

use log_appending::laws::tells_of_log;
use rsl_chain::laws::logs;
use worlds::{Kinds, Objects, Of};

/// A repository has one log with its entries at most, and `log` comes to one outcome at most for it.
pub fn one_of_history()
    ensures { OneOfHistory }
{
    logs();
}

/// The lines of a log stand in the order of the numbers that they begin with: 1, 2 and so on.
pub fn counts_from_one()
    ensures { CountsFromOne }
{}

/// Where the store tells its content, what ended is what the command comes to, unless it stopped for a fault or for
/// want of memory.
pub fn tells_of_history()
    ensures { TellsOfHistory }
{}

/// Where the objects that a command touches tell their content, its ending is the one for that content, unless it
/// stopped for a fault or for want of memory.
pub fn log_over_world<W: Objects>()
    ensures { TellsOfWorld ⟦<Of<W> as Objects>⟧.ways }
{
    tells_of_history();
    tells_of_log::<W::Keeper, W::Disk>();
}
