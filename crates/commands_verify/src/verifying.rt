//! The command `verify-ref`.

ghost use Rattle.std.specs.Prelude.{◌≡◌, false, OnOk, Some};
ghost use Rattle.git_object.specs.Repository.{Repository};
ghost use Rattle.worlds.specs.Counts.{Faults, IsCounted};
ghost use Rattle.verify_ref.specs.Reading.{ReadsVerdict};
ghost use Rattle.commands_verify.specs.Verdicts.{anchor_of};
ghost use Rattle.commands_verify.specs.Verifying.{LookEnds, VerifyEnds, verify_ending};

use crate::held_verdict::judge;
use commands_stream::{TakeFault, open, take_refusal};
use edge_io::{Failed, Sink, Source, write_all};
use git_object::{KeyId, ObjectId, RefName};
use keeper_api::Keeper;
use octets::Items;
use std::alloc::Global;
use verify_ref::{RefVerdict, Verdict, text};
use worlds::{Ending, Part, Refusal, print_break};

/// Why there is no verdict.
#[derive(Clone, Copy, Debug, PartialEq, Eq)]
pub enum VerifyFault {
    /// A stream was to be judged, and none was taken.
    Unopened { fault: TakeFault },
    /// The log breaks at the commit of this id, and the line that says so was printed.
    LogBroken { id: ObjectId },
    KeeperFailed,
    SinkFailed,
    Memory,
}

/// How the program ends.
pub fn verify_ending(outcome: &Result<RefVerdict, VerifyFault>) -> Ending
    ensures { result ≡ verify_ending outcome.now }
{
    match outcome {
        Ok(Verdict::Accepted { count: _ }) => Ending::Done,
        Ok(
            Verdict::TipDiffers {
                kept: _,
                recorded: _,
            },
        ) => Ending::Differs,
        Ok(
            Verdict::Violation {
                number: _,
                fault: _,
            },
        ) => Ending::Differs,
        Err(VerifyFault::Unopened { fault }) => Ending::Refused {
            refusal: take_refusal(fault),
        },
        Err(VerifyFault::LogBroken { id: _ }) => Ending::Broken,
        Err(VerifyFault::KeeperFailed) => Ending::Refused {
            refusal: Refusal::Fault { part: Part::Keeper },
        },
        Err(VerifyFault::SinkFailed) => Ending::Refused {
            refusal: Refusal::Fault { part: Part::Sink },
        },
        Err(VerifyFault::Memory) => Ending::Refused {
            refusal: Refusal::Memory,
        },
    }
}

// Opens the repository, and judges the reference in what the keeper then holds.
fn look<S: Source, R: Keeper>(
    alloc: Global,
    name: &RefName,
    root: &Option<Items<KeyId>>,
    stdin: bool,
    source: &mut S,
    keeper: &mut R,
) -> Result<RefVerdict, VerifyFault>
    ensures ends { LookEnds name.now root.now stdin R.Keeper (S.left source.old) (S.left source.new) keeper.old
        keeper.new result }
    ensures unread { stdin ≡ false → source.new ≡ source.old }
    ensures reads { OnOk result ((r : Repository) → R.content keeper.new ≡ Some r
        → ReadsVerdict (anchor_of root.now) r (R.reads keeper.old) (R.reads keeper.new)) }
    ensures counted { (rest : Faults) → IsCounted (verify_ending result)
        (record rest { source = S.faults source.old; keeper = R.faults keeper.old })
        (record rest { source = S.faults source.new; keeper = R.faults keeper.new }) }
{
    match open(alloc, stdin, source, keeper) {
        Ok(()) => {}
        Err(fault) => return Err(VerifyFault::Unopened { fault }),
    }
    judge(alloc, keeper, name, root)
}

/// Opens the repository - the source's stream where `stdin` asks for it, else what the store holds -, judges the
/// reference, and prints the verdict's line, or the line that says at which commit the log breaks. Where no stream is
/// asked for, the source is not touched. Where ids of keys are given, the first policy must have exactly these. Each
/// entry of the log is read twice, and beside that what judging it asks for.
pub fn verify_ref<S: Source, K: Sink, R: Keeper>(
    alloc: Global,
    name: &RefName,
    root: &Option<Items<KeyId>>,
    stdin: bool,
    source: &mut S,
    sink: &mut K,
    keeper: &mut R,
) -> Result<RefVerdict, VerifyFault>
    ensures ends { VerifyEnds name.now root.now stdin R.Keeper (S.left source.old) (S.left source.new) keeper.old
        keeper.new (K.contents sink.old) (K.contents sink.new) result }
    ensures unread { stdin ≡ false → source.new ≡ source.old }
    ensures reads { OnOk result ((r : Repository) → R.content keeper.new ≡ Some r
        → ReadsVerdict (anchor_of root.now) r (R.reads keeper.old) (R.reads keeper.new)) }
    ensures counted { (rest : Faults) → IsCounted (verify_ending result)
        (record rest { source = S.faults source.old; sink = K.faults sink.old; keeper = R.faults keeper.old })
        (record rest { source = S.faults source.new; sink = K.faults sink.new; keeper = R.faults keeper.new }) }
{
    let looked = look(alloc, name, root, stdin, source, keeper);
    let verdict = match &looked {
        Ok(verdict) => verdict,
        Err(VerifyFault::Unopened { fault }) => {
            return Err(VerifyFault::Unopened { fault: *fault });
        }
        Err(VerifyFault::LogBroken { id }) => match print_break(sink, id) {
            Ok(()) => return Err(VerifyFault::LogBroken { id: *id }),
            Err(Failed) => return Err(VerifyFault::SinkFailed),
        },
        Err(VerifyFault::KeeperFailed) => return Err(VerifyFault::KeeperFailed),
        Err(VerifyFault::SinkFailed) => return Err(VerifyFault::SinkFailed),
        Err(VerifyFault::Memory) => return Err(VerifyFault::Memory),
    };
    let Ok(line) = text(alloc, name, verdict) else {
        return Err(VerifyFault::Memory);
    };
    match write_all(sink, line.as_slice()) {
        Ok(()) => looked,
        Err(Failed) => Err(VerifyFault::SinkFailed),
    }
}
