//! The command `serve`, before a desk is opened.

ghost use Rattle.std.specs.Prelude.{◌≡◌, ◌++◌, IfErr, IfOk, OnOk, codes, decimal, length, Some};
ghost use Rattle.octets.specs.Causes.{HasCause};
ghost use Rattle.git_object.specs.Repository.{Repository};
ghost use Rattle.keeper_api.specs.Undisturbed.{Undisturbed};
ghost use Rattle.worlds.specs.Counts.{Faults, IsCounted};
ghost use Rattle.commands_desk.specs.Readying.{Loads, ServeEnds, Tells, fault_of, load_failed, ready_line};
ghost use Rattle.commands_desk.specs.Readying.{serve_ending, tell_failed};

use edge_io::{Failed, Sink, write_all};
use git_object::ObjectId;
use itoa::Buffer;
use keeper_api::Keeper;
use octets::{Memory, Octets};
use rsl_chain::{Log, LogFault};
use std::alloc::Global;
use worlds::{Ending, Part, Refusal, print_break};

/// Why a desk is not ready.
#[derive(Clone, Copy, Debug, PartialEq, Eq)]
pub enum ServeFault {
    /// The log breaks at the commit of this id, and the line that says so was printed.
    LogBroken { id: ObjectId },
    KeeperFailed,
    SinkFailed,
    Memory,
}

/// How the program ends, or what it says before it serves.
pub fn serve_ending(outcome: &Result<usize, ServeFault>) -> Ending
    ensures { result ≡ serve_ending outcome.now }
{
    match outcome {
        Ok(_) => Ending::Done,
        Err(ServeFault::LogBroken { id: _ }) => Ending::Broken,
        Err(ServeFault::KeeperFailed) => Ending::Refused {
            refusal: Refusal::Fault { part: Part::Keeper },
        },
        Err(ServeFault::SinkFailed) => Ending::Refused {
            refusal: Refusal::Fault { part: Part::Sink },
        },
        Err(ServeFault::Memory) => Ending::Refused {
            refusal: Refusal::Memory,
        },
    }
}

// The line that says with how many entries a desk is ready.
fn ready_text(alloc: Global, count: usize) -> Result<Octets, Memory>
    ensures { IfOk result (λ text. text ≡ ready_line count) }
{
    let mut digits = Buffer::new();
    let mut text = Octets::from_slice(alloc, b"ready ")?;
    text.append(digits.format(count).as_bytes())?;
    text.append(b" entries\n")?;
    Ok(text)
}

// Why no log was loaded.
fn fault_of(fault: &LogFault) -> ServeFault
    ensures { result ≡ fault_of fault.now }
{
    match fault {
        LogFault::Broken { id } => ServeFault::LogBroken { id: *id },
        LogFault::Failed => ServeFault::KeeperFailed,
        LogFault::Memory => ServeFault::Memory,
    }
}

// How many entries the log has.
fn load<R: Keeper>(alloc: Global, keeper: &mut R) -> Result<usize, ServeFault>
    ensures loads { Loads (R.content keeper.new) result }
    ensures same { Undisturbed R.Keeper keeper.old keeper.new }
    ensures cause { HasCause load_failed (R.faults keeper.old) (R.faults keeper.new) result }
{
    match Log::load(alloc, keeper) {
        Ok(log) => Ok(log.ids.len()),
        Err(fault) => Err(fault_of(&fault)),
    }
}

// Prints with how many entries a desk is ready.
fn tell<K: Sink>(alloc: Global, sink: &mut K, count: usize) -> Result<usize, ServeFault>
    ensures tells { Tells count (K.contents sink.old) (K.contents sink.new) result }
    ensures cause { HasCause tell_failed (K.faults sink.old) (K.faults sink.new) result }
{
    let Ok(line) = ready_text(alloc, count) else {
        return Err(ServeFault::Memory);
    };
    match write_all(sink, line.as_slice()) {
        Ok(()) => Ok(count),
        Err(Failed) => Err(ServeFault::SinkFailed),
    }
}

/// Loads the log of the store, prints the line that says that a desk with its entries is ready, and answers how many
/// there are. `LogBroken` comes exactly where the log breaks, and the line that names the break was printed. The store
/// is as before.
pub fn serve<K: Sink, R: Keeper>(
    alloc: Global,
    sink: &mut K,
    keeper: &mut R,
) -> Result<usize, ServeFault>
    ensures ends { ServeEnds (R.content keeper.new) (K.contents sink.old) (K.contents sink.new) result }
    ensures same { Undisturbed R.Keeper keeper.old keeper.new }
    ensures counted { (rest : Faults) → IsCounted (serve_ending result)
        (record rest { sink = K.faults sink.old; keeper = R.faults keeper.old })
        (record rest { sink = K.faults sink.new; keeper = R.faults keeper.new }) }
{
    let loaded = load(alloc, keeper);
    match &loaded {
        Ok(count) => tell(alloc, sink, *count),
        Err(ServeFault::LogBroken { id }) => match print_break(sink, id) {
            Ok(()) => Err(ServeFault::LogBroken { id: *id }),
            Err(Failed) => Err(ServeFault::SinkFailed),
        },
        Err(ServeFault::KeeperFailed) => Err(ServeFault::KeeperFailed),
        Err(ServeFault::SinkFailed) => Err(ServeFault::SinkFailed),
        Err(ServeFault::Memory) => Err(ServeFault::Memory),
    }
}
