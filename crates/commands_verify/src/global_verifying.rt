//! The command `verify-global`.

ghost use Rattle.std.specs.Prelude.{◌≡◌};
ghost use Rattle.keeper_api.specs.Undisturbed.{Undisturbed};
ghost use Rattle.worlds.specs.Counts.{Faults, IsCounted};
ghost use Rattle.commands_verify.specs.GlobalVerifying.{GlobalEnds, global_ending};

use crate::global_held_verdict::judge_held;
use edge_io::{Failed, Sink, write_all};
use git_object::{KeyId, ObjectId, RefName};
use global_verdicts::{GlobalVerdict, text};
use keeper_api::Keeper;
use octets::Items;
use std::alloc::Global;
use worlds::{Ending, Part, Refusal, print_break};

/// Why there is no verdict.
#[derive(Clone, Copy, Debug, PartialEq, Eq)]
pub enum VerifyFault {
    /// The log breaks at the commit of this id, and the line that says so was printed.
    LogBroken { id: ObjectId },
    KeeperFailed,
    SinkFailed,
    Memory,
}

/// How the program ends.
pub fn global_ending(outcome: &Result<GlobalVerdict, VerifyFault>) -> Ending
    ensures { result ≡ global_ending outcome.now }
{
    match outcome {
        Ok(GlobalVerdict::Kept { count: _ }) => Ending::Done,
        Ok(GlobalVerdict::Violation { number: _, why: _ }) => Ending::Differs,
        Err(VerifyFault::LogBroken { id: _ }) => Ending::Broken,
        Err(VerifyFault::KeeperFailed) => Ending::Refused {
            refusal: Refusal::Fault { part: Part::Keeper },
        },
        Err(VerifyFault::SinkFailed) => Ending::Refused {
            refusal: Refusal::Fault { part: Part::Sink },
        },
        Err(VerifyFault::Memory) => Ending::Refused {
            refusal: Refusal::Memory,
        },
    }
}

/// Judges a reference of what the store holds by the global rules of the policies of its log, and prints the verdict's
/// line, or the line that says at which commit the log breaks. Where ids of keys are given, the first policy must have
/// exactly these. The store is as before.
pub fn verify_global<K: Sink, R: Keeper>(
    alloc: Global,
    name: &RefName,
    root: &Option<Items<KeyId>>,
    sink: &mut K,
    keeper: &mut R,
) -> Result<GlobalVerdict, VerifyFault>
    ensures ends { GlobalEnds name.now root.now (R.content keeper.new) (K.contents sink.old) (K.contents sink.new)
        result }
    ensures same { Undisturbed R.Keeper keeper.old keeper.new }
    ensures counted { (rest : Faults) → IsCounted (global_ending result)
        (record rest { sink = K.faults sink.old; keeper = R.faults keeper.old })
        (record rest { sink = K.faults sink.new; keeper = R.faults keeper.new }) }
{
    let judged = judge_held(alloc, keeper, name, root);
    let verdict = match &judged {
        Ok(verdict) => verdict,
        Err(VerifyFault::LogBroken { id }) => match print_break(sink, id) {
            Ok(()) => return Err(VerifyFault::LogBroken { id: *id }),
            Err(Failed) => return Err(VerifyFault::SinkFailed),
        },
        Err(VerifyFault::KeeperFailed) => return Err(VerifyFault::KeeperFailed),
        Err(VerifyFault::SinkFailed) => return Err(VerifyFault::SinkFailed),
        Err(VerifyFault::Memory) => return Err(VerifyFault::Memory),
    };
    let Ok(line) = text(alloc, name, verdict) else {
        return Err(VerifyFault::Memory);
    };
    match write_all(sink, line.as_slice()) {
        Ok(()) => judged,
        Err(Failed) => Err(VerifyFault::SinkFailed),
    }
}
