//! Laws over what `demo` comes to. No call needs these functions: their contracts are the laws.

ghost use Rattle.demo.specs.Laws.{OneOfDemo, TellsOfDemo};
ghost use Rattle.demo.specs.Runs.{TellsOfWorld};

use keeper_api::Keeper;
use rsl_chain::laws::logs;
use worlds::{Kinds, Objects, Of};

/// For the same store and number of changes `demo` comes to one outcome at most, faults and want of memory aside.
pub fn one_of_demo()
    ensures { OneOfDemo }
{
    logs();
}

/// Where the store tells what it holds, what ended is what `demo` comes to, or it stopped.
pub fn tells_of_demo<R: Keeper>()
    ensures { TellsOfDemo R.Keeper }
{}

/// Where the objects that the command touches tell their content, its ending is the one for that content, unless it
/// stopped for a fault or for want of memory.
pub fn demo_over_world<W: Objects>()
    ensures { TellsOfWorld ⟦<Of<W> as Objects>⟧.ways }
{
    tells_of_demo::<W::Keeper>();
}
