//! The command `import`.

ghost use Rattle.std.specs.Prelude.{◌≡◌, ◌≤◌};
ghost use Rattle.worlds.specs.Counts.{Faults, IsCounted};
ghost use Rattle.commands_stream.specs.Importing.{ImportEnds, import_ending};

use crate::taking::{TakeFault, take, take_refusal};
use edge_io::{Failed, Sink, Source, write_all};
use keeper_api::Keeper;
use std::alloc::Global;
use worlds::{Ending, Part, Refusal};

/// Why an import is refused.
#[derive(Clone, Copy, Debug, PartialEq, Eq)]
pub enum ImportFault {
    /// No stream was taken.
    Untaken { fault: TakeFault },
    /// The stream was taken, and could not be reported.
    SinkFailed,
}

/// How the program ends.
pub fn import_ending(outcome: &Result<(), ImportFault>) -> Ending
    ensures { result ≡ import_ending outcome.now }
{
    match outcome {
        Ok(()) => Ending::Done,
        Err(ImportFault::Untaken { fault }) => Ending::Refused {
            refusal: take_refusal(fault),
        },
        Err(ImportFault::SinkFailed) => Ending::Refused {
            refusal: Refusal::Fault { part: Part::Sink },
        },
    }
}

/// Takes the source's stream into the empty store, and says so. Nothing is printed where none was taken.
pub fn import<S: Source, K: Sink, R: Keeper>(
    alloc: Global,
    source: &mut S,
    sink: &mut K,
    keeper: &mut R,
) -> Result<(), ImportFault>
    ensures ends { ImportEnds R.Keeper (S.left source.old) (S.left source.new) keeper.old keeper.new
        (K.contents sink.old) (K.contents sink.new) result }
    ensures counted { (rest : Faults) → IsCounted (import_ending result)
        (record rest { source = S.faults source.old; sink = K.faults sink.old; keeper = R.faults keeper.old })
        (record rest { source = S.faults source.new; sink = K.faults sink.new; keeper = R.faults keeper.new }) }
    ensures reads { R.reads keeper.new ≡ R.reads keeper.old }
{
    match take(alloc, source, keeper) {
        Ok(()) => {}
        Err(fault) => return Err(ImportFault::Untaken { fault }),
    }
    match write_all(sink, b"imported\n") {
        Ok(()) => Ok(()),
        Err(Failed) => Err(ImportFault::SinkFailed),
    }
}
