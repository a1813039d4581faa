//! The command `demo`.

ghost use Rattle.std.specs.Prelude.{◌≡◌, ◌≤◌, None, OnOk, Some};
ghost use Rattle.octets.specs.Causes.{HasCause};
ghost use Rattle.git_object.specs.Repository.{Repository};
ghost use Rattle.worlds.specs.Counts.{Faults, IsCounted};
ghost use Rattle.verify_ref.specs.Reading.{ReadsVerdict};
ghost use Rattle.demo.specs.Histories.{main_name};
ghost use Rattle.demo.specs.Demos.{DemoEnds, JudgeEnds, demo_ending, fill_ending, judge_fault, keeper_failed};

use crate::filling::{FillFault, fill};
use crate::lines::demo_lines;
use crate::main_name;
use edge_io::{Failed, Sink, write_all};
use git_object::{ObjectId, RefName};
use keeper_api::Keeper;
use std::alloc::Global;
use verify_ref::{LogFault, RefVerdict, Verdict, verify};
use worlds::{Ending, Part, Refusal, print_break};

/// Why there is no verdict on a demonstration, or why it was not told.
#[derive(Clone, Copy, Debug, PartialEq, Eq)]
pub enum DemoFault {
    /// The store was not filled.
    Unfilled { fault: FillFault },
    /// The store was filled, its log breaks at the commit of this id, and the line that says so was printed.
    LogBroken { id: ObjectId },
    /// The store was filled, and failed where it was judged.
    KeeperFailed,
    /// The store was filled, and the answer could not be told.
    SinkFailed,
    /// Memory was wanting once the store was filled.
    Memory,
}

fn failed(part: Part) -> Ending
    ensures { result ≡ Ending.Refused (Refusal.Fault part) }
{
    Ending::Refused {
        refusal: Refusal::Fault { part },
    }
}

fn fill_ending(fault: &FillFault) -> Ending
    ensures { result ≡ fill_ending fault.now }
{
    match fault {
        FillFault::KeeperFailed => failed(Part::Keeper),
        FillFault::NotEmpty => Ending::Refused {
            refusal: Refusal::NotEmpty,
        },
        FillFault::Memory => Ending::Refused {
            refusal: Refusal::Memory,
        },
        FillFault::CommitFailed => failed(Part::Keeper),
    }
}

/// How the program ends.
pub fn demo_ending(outcome: &Result<RefVerdict, DemoFault>) -> Ending
    ensures { result ≡ demo_ending outcome.now }
{
    match outcome {
        Ok(Verdict::Accepted { count: _ }) => Ending::Done,
        Ok(
            Verdict::TipDiffers {
                kept: _,
                recorded: _,
            },
        ) => Ending::Differs,
        Ok(
            Verdict::Violation {
                number: _,
                fault: _,
            },
        ) => Ending::Differs,
        Err(DemoFault::Unfilled { fault }) => fill_ending(fault),
        Err(DemoFault::LogBroken { id: _ }) => Ending::Broken,
        Err(DemoFault::KeeperFailed) => failed(Part::Keeper),
        Err(DemoFault::SinkFailed) => failed(Part::Sink),
        Err(DemoFault::Memory) => Ending::Refused {
            refusal: Refusal::Memory,
        },
    }
}

fn judge_fault(fault: &LogFault) -> DemoFault
    ensures { result ≡ judge_fault fault.now }
{
    match fault {
        LogFault::Broken { id } => DemoFault::LogBroken { id: *id },
        LogFault::Failed => DemoFault::KeeperFailed,
        LogFault::Memory => DemoFault::Memory,
    }
}

// Fills the store, and judges the branch in what it then holds.
fn fill_and_judge<R: Keeper>(
    alloc: Global,
    count: u32,
    name: &RefName,
    keeper: &mut R,
) -> Result<RefVerdict, DemoFault>
    requires few { count ≤ 500 }
    requires name { name.now ≡ main_name }
    ensures ends { JudgeEnds count R.Keeper keeper.old keeper.new result }
    ensures cause { HasCause keeper_failed (R.faults keeper.old) (R.faults keeper.new) result }
    ensures reads { OnOk result ((r : Repository) → R.content keeper.new ≡ Some r
        → ReadsVerdict None r (R.reads keeper.old) (R.reads keeper.new)) }
{
    match fill(alloc, count, keeper) {
        Ok(()) => {}
        Err(fault) => return Err(DemoFault::Unfilled { fault }),
    }
    match verify(alloc, keeper, name, None) {
        Ok(verdict) => Ok(verdict),
        Err(fault) => Err(judge_fault(&fault)),
    }
}

/// Makes the repository of a demonstration of so many changes, 1 to 500, in a store that holds nothing, by one commit,
/// judges its branch by the log, and prints how many changes there are and the verdict's line; or the line that says at
/// which commit the log breaks. `NotEmpty` comes exactly where the store holds something, and then nothing is changed.
pub fn demo<K: Sink, R: Keeper>(
    alloc: Global,
    count: u32,
    sink: &mut K,
    keeper: &mut R,
) -> Result<RefVerdict, DemoFault>
    requires { count ≤ 500 }
    ensures ends { DemoEnds count R.Keeper keeper.old keeper.new (K.contents sink.old) (K.contents sink.new) result }
    ensures reads { OnOk result ((r : Repository) → R.content keeper.new ≡ Some r
        → ReadsVerdict None r (R.reads keeper.old) (R.reads keeper.new)) }
    ensures counted { (rest : Faults) → IsCounted (demo_ending result)
        (record rest { sink = K.faults sink.old; keeper = R.faults keeper.old })
        (record rest { sink = K.faults sink.new; keeper = R.faults keeper.new }) }
{
    let Ok(name) = main_name(alloc) else {
        return Err(DemoFault::Unfilled {
            fault: FillFault::Memory,
        });
    };
    let judged = fill_and_judge(alloc, count, &name, keeper);
    let verdict = match &judged {
        Ok(verdict) => verdict,
        Err(DemoFault::LogBroken { id }) => match print_break(sink, id) {
            Ok(()) => return Err(DemoFault::LogBroken { id: *id }),
            Err(Failed) => return Err(DemoFault::SinkFailed),
        },
        Err(DemoFault::Unfilled { fault }) => return Err(DemoFault::Unfilled { fault: *fault }),
        Err(DemoFault::KeeperFailed) => return Err(DemoFault::KeeperFailed),
        Err(DemoFault::SinkFailed) => unreachable!(),
        Err(DemoFault::Memory) => return Err(DemoFault::Memory),
    };
    let Ok(lines) = demo_lines(alloc, count, &name, verdict) else {
        return Err(DemoFault::Memory);
    };
    match write_all(sink, lines.as_slice()) {
        Ok(()) => judged,
        Err(Failed) => Err(DemoFault::SinkFailed),
    }
}
