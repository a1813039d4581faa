//! The command `log`.

ghost use Rattle.std.specs.Prelude.{◌≡◌, ◌≤◌, ◌+◌, ◌*◌, IfOk};
ghost use Rattle.keeper_api.specs.Undisturbed.{Undisturbed};
ghost use Rattle.worlds.specs.Counts.{Faults, IsCounted};
ghost use Rattle.commands_log.specs.Logging.{LogEnds, log_ending};

use crate::faults::LogCommandFault;
use crate::printing::print_log;
use edge_io::{Failed, Sink};
use keeper_api::Keeper;
use std::alloc::Global;
use worlds::{Ending, Part, Refusal, print_break};

/// How the program ends.
pub fn log_ending(outcome: &Result<usize, LogCommandFault>) -> Ending
    ensures { result ≡ log_ending outcome.now }
{
    match outcome {
        Ok(_) => Ending::Done,
        Err(LogCommandFault::Broken { id: _ }) => Ending::Broken,
        Err(LogCommandFault::KeeperFailed) => Ending::Refused {
            refusal: Refusal::Fault { part: Part::Keeper },
        },
        Err(LogCommandFault::SinkFailed) => Ending::Refused {
            refusal: Refusal::Fault { part: Part::Sink },
        },
        Err(LogCommandFault::Memory) => Ending::Refused {
            refusal: Refusal::Memory,
        },
    }
}

/// Prints the log of the store's repository, a line for each entry in the order of their numbers, and answers how
/// many there are. `Broken` comes exactly where the log breaks, and the line that names the break was printed. After
/// the other refusals a front of these lines went out. The store is as before. Each entry is read at most twice, one
/// at a time, and the log takes 32 bytes an entry.
pub fn log<K: Sink, R: Keeper>(
    alloc: Global,
    sink: &mut K,
    keeper: &mut R,
) -> Result<usize, LogCommandFault>
    ensures ends { LogEnds (R.content keeper.new) (K.contents sink.old) (K.contents sink.new) result }
    ensures same { Undisturbed R.Keeper keeper.old keeper.new }
    ensures counted { (rest : Faults) → IsCounted (log_ending result)
        (record rest { sink = K.faults sink.old; keeper = R.faults keeper.old })
        (record rest { sink = K.faults sink.new; keeper = R.faults keeper.new }) }
    ensures reads { IfOk result (λ count. R.reads keeper.new ≤ R.reads keeper.old + 2 * count) }
    ensures most { R.reads keeper.new ≤ R.reads keeper.old + 2000000 }
{
    let outcome = print_log(alloc, sink, keeper);
    match &outcome {
        Ok(count) => Ok(*count),
        Err(LogCommandFault::Broken { id }) => match print_break(sink, id) {
            Ok(()) => Err(LogCommandFault::Broken { id: *id }),
            Err(Failed) => Err(LogCommandFault::SinkFailed),
        },
        Err(LogCommandFault::KeeperFailed) => Err(LogCommandFault::KeeperFailed),
        Err(LogCommandFault::SinkFailed) => Err(LogCommandFault::SinkFailed),
        Err(LogCommandFault::Memory) => Err(LogCommandFault::Memory),
    }
}
