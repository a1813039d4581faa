//! Taking a stream into the keeper: a step that several commands share.

ghost use Rattle.std.specs.Prelude.{◌≡◌, ◌≤◌, IfErr, OnOk};
ghost use Rattle.clone_stream.specs.Taking.{TakesInto};
ghost use Rattle.worlds.specs.Counts.{Faults, IsCounted};
ghost use Rattle.commands_stream.specs.Taking.{DeclinesTaking, take_ending, take_fault, take_refusal};

use clone_stream::{StreamFault, read_stream};
use edge_io::Source;
use keeper_api::Keeper;
use std::alloc::Global;
use worlds::{Part, Refusal};

/// Why no stream was taken.
#[derive(Clone, Copy, Debug, PartialEq, Eq)]
pub enum TakeFault {
    /// The stream is refused, by the refusal of this number; 8 where the store holds something already.
    Stream { number: u8 },
    SourceFailed,
    KeeperFailed,
    Memory,
}

/// The refusal that the program then says.
pub fn take_refusal(fault: &TakeFault) -> Refusal
    ensures { result ≡ take_refusal fault.now }
{
    match fault {
        TakeFault::Stream { number } => Refusal::Stream { number: *number },
        TakeFault::SourceFailed => Refusal::Fault { part: Part::Source },
        TakeFault::KeeperFailed => Refusal::Fault { part: Part::Keeper },
        TakeFault::Memory => Refusal::Memory,
    }
}

// Why no stream was taken, of a refused stream.
fn take_fault(fault: &StreamFault) -> TakeFault
    ensures { result ≡ take_fault fault.now }
{
    match fault {
        StreamFault::SourceFailed => TakeFault::SourceFailed,
        StreamFault::KeeperFailed => TakeFault::KeeperFailed,
        StreamFault::Memory => TakeFault::Memory,
        _ => TakeFault::Stream {
            number: fault.number(),
        },
    }
}

/// Takes the source's stream into the keeper.
pub(crate) fn take<S: Source, R: Keeper>(
    alloc: Global,
    source: &mut S,
    keeper: &mut R,
) -> Result<(), TakeFault>
    ensures took { OnOk result (TakesInto R.Keeper (S.left source.old) (S.left source.new) keeper.old keeper.new) }
    ensures declines { IfErr result
        (DeclinesTaking R.Keeper (S.left source.old) (S.left source.new) keeper.old keeper.new) }
    ensures counted { (rest : Faults) → IsCounted (take_ending result)
        (record rest { source = S.faults source.old; keeper = R.faults keeper.old })
        (record rest { source = S.faults source.new; keeper = R.faults keeper.new }) }
    ensures reads { R.reads keeper.new ≡ R.reads keeper.old }
{
    match read_stream(alloc, source, keeper) {
        Ok(()) => Ok(()),
        Err(fault) => Err(take_fault(&fault)),
    }
}
