//! The command `export`.

ghost use Rattle.std.specs.Prelude.{◌≡◌, ◌≤◌, ◌+◌, length, OnOk, Some};
ghost use Rattle.std.specs.FinMap.{entries};
ghost use Rattle.git_object.specs.Repository.{Repository};
ghost use Rattle.keeper_api.specs.Undisturbed.{Undisturbed};
ghost use Rattle.worlds.specs.Counts.{Faults, IsCounted};
ghost use Rattle.commands_stream.specs.Exporting.{ExportEnds, export_ending};

use clone_stream::{ExportFault, write_stream};
use edge_io::Sink;
use keeper_api::Keeper;
use std::alloc::Global;
use worlds::{Ending, Part, Refusal};

/// How the program ends.
pub fn export_ending(outcome: &Result<(), ExportFault>) -> Ending
    ensures { result ≡ export_ending outcome.now }
{
    match outcome {
        Ok(()) => Ending::Done,
        Err(ExportFault::Damaged { id }) => Ending::Refused {
            refusal: Refusal::Object { id: *id },
        },
        Err(ExportFault::TooLarge { limit: _ }) => Ending::Refused {
            refusal: Refusal::TooLarge,
        },
        Err(ExportFault::KeeperFailed) => Ending::Refused {
            refusal: Refusal::Fault { part: Part::Keeper },
        },
        Err(ExportFault::SinkFailed) => Ending::Refused {
            refusal: Refusal::Fault { part: Part::Sink },
        },
        Err(ExportFault::Memory) => Ending::Refused {
            refusal: Refusal::Memory,
        },
    }
}

/// Prints the stream of the store's repository. The refusals come where `write_stream` says, and a front of the
/// stream was then printed. The store is as before. Each object is read once.
pub fn export<K: Sink, R: Keeper>(
    alloc: Global,
    sink: &mut K,
    keeper: &mut R,
) -> Result<(), ExportFault>
    ensures ends { ExportEnds (R.content keeper.new) (K.contents sink.old) (K.contents sink.new) result }
    ensures same { Undisturbed R.Keeper keeper.old keeper.new }
    ensures counted { (rest : Faults) → IsCounted (export_ending result)
        (record rest { sink = K.faults sink.old; keeper = R.faults keeper.old })
        (record rest { sink = K.faults sink.new; keeper = R.faults keeper.new }) }
    ensures reads { OnOk result ((r : Repository) → R.content keeper.new ≡ Some r
        → R.reads keeper.new ≤ R.reads keeper.old + length (entries r.objects)) }
{
    match write_stream(alloc, keeper, sink) {
        Ok(()) => Ok(()),
        Err(ExportFault::KeeperFailed) => Err(ExportFault::KeeperFailed),
        Err(ExportFault::SinkFailed) => Err(ExportFault::SinkFailed),
        Err(fault) => Err(fault),
    }
}
