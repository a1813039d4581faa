//! The command `seal`.

ghost use Rattle.std.specs.Prelude.{◌≡◌};
ghost use Rattle.octets.specs.Causes.{HasCause};
ghost use Rattle.edge_io.specs.Moments.{LeavesOnly};
ghost use Rattle.leaf_journal.specs.KeyFile.{KeepsUsed};
ghost use Rattle.worlds.specs.Counts.{Faults, IsCounted};
ghost use Rattle.commands_keys.specs.Sealing.{SealEnds, SealedEnds, disk_failed, input_ending, seal_ending};
ghost use Rattle.commands_keys.specs.Sealing.{signing_ending, source_failed};

use crate::inputs::{InputFault, take_envelope};
use crate::signing_envelopes::{SigningFault, sign_envelope};
use edge_io::{Disk, Failed, Sink, Source, write_all};
use leaf_journal::OpenFault;
use octets::Octets;
use std::alloc::Global;
use worlds::{Ending, Part, Refusal};

/// Why no signed envelope was printed.
#[derive(Clone, Copy, Debug, PartialEq, Eq)]
pub enum SealFault {
    /// The source gave nothing to seal. The key file was not looked at.
    Untaken { fault: InputFault },
    /// What the source gave was not signed.
    Unsigned { fault: SigningFault },
    /// The envelope was signed, and could not be printed. The leaf is used.
    SinkFailed,
}

fn failed(part: Part) -> Ending
    ensures { result ≡ Ending.Refused (Refusal.Fault part) }
{
    Ending::Refused {
        refusal: Refusal::Fault { part },
    }
}

fn refused(refusal: Refusal) -> Ending
    ensures { result ≡ Ending.Refused refusal }
{
    Ending::Refused { refusal }
}

fn input_ending(fault: &InputFault) -> Ending
    ensures { result ≡ input_ending fault.now }
{
    match fault {
        InputFault::TooLong => refused(Refusal::Input),
        InputFault::NoEnvelope { fault: _ } => refused(Refusal::Input),
        InputFault::SourceFailed => failed(Part::Source),
        InputFault::Memory => refused(Refusal::Memory),
    }
}

fn signing_ending(fault: &SigningFault) -> Ending
    ensures { result ≡ signing_ending fault.now }
{
    match fault {
        SigningFault::Unopened {
            fault: OpenFault::KeyFile,
        } => refused(Refusal::KeyFile),
        SigningFault::Unopened {
            fault: OpenFault::DiskFailed,
        } => failed(Part::Disk),
        SigningFault::Unopened {
            fault: OpenFault::Memory,
        } => refused(Refusal::Memory),
        SigningFault::Full => refused(Refusal::Input),
        SigningFault::Exhausted => refused(Refusal::Exhausted),
        SigningFault::DiskFailed => failed(Part::Disk),
        SigningFault::Memory => refused(Refusal::Memory),
        SigningFault::MemoryAfter => refused(Refusal::Memory),
    }
}

/// How the program ends.
pub fn seal_ending(outcome: &Result<(), SealFault>) -> Ending
    ensures { result ≡ seal_ending outcome.now }
{
    match outcome {
        Ok(()) => Ending::Done,
        Err(SealFault::Untaken { fault }) => input_ending(fault),
        Err(SealFault::Unsigned { fault }) => signing_ending(fault),
        Err(SealFault::SinkFailed) => failed(Part::Sink),
    }
}

// Takes what the source gives, and signs it.
fn sealed_line<S: Source, D: Disk>(
    alloc: Global,
    add: bool,
    source: &mut S,
    disk: &mut D,
) -> Result<Octets, SealFault>
    ensures ends { SealedEnds D.Disk add (S.left source.old) (S.left source.new) disk.old disk.new result }
    ensures any_moment { LeavesOnly D.moment D.left_since disk.old disk.new (KeepsUsed (D.may_leave disk.old)) }
    ensures source { HasCause source_failed (S.faults source.old) (S.faults source.new) result }
    ensures disk { HasCause disk_failed (D.faults disk.old) (D.faults disk.new) result }
{
    let envelope = match take_envelope(alloc, add, source) {
        Ok(envelope) => envelope,
        Err(fault) => return Err(SealFault::Untaken { fault }),
    };
    match sign_envelope(alloc, envelope, disk) {
        Ok(line) => Ok(line),
        Err(fault) => Err(SealFault::Unsigned { fault }),
    }
}

/// Signs what the source gives, with the first unused leaf of the key file, and prints the envelope and a line feed.
/// With `add` the source gives an envelope, and the signature stands in place of the first whose `keyid` is the key's
/// id, or else at the end; else it gives a payload of a policy's metadata. The source is read first, then the key file;
/// the first refusal decides, and an envelope of 64 signatures without one of this key is refused after the key file.
pub fn seal<S: Source, K: Sink, D: Disk>(
    alloc: Global,
    add: bool,
    source: &mut S,
    sink: &mut K,
    disk: &mut D,
) -> Result<(), SealFault>
    ensures ends { SealEnds D.Disk add (S.left source.old) (S.left source.new) disk.old disk.new (K.contents sink.old)
        (K.contents sink.new) result }
    ensures any_moment { LeavesOnly D.moment D.left_since disk.old disk.new (KeepsUsed (D.may_leave disk.old)) }
    ensures counted { (rest : Faults) → IsCounted (seal_ending result)
        (record rest { source = S.faults source.old; sink = K.faults sink.old; disk = D.faults disk.old })
        (record rest { source = S.faults source.new; sink = K.faults sink.new; disk = D.faults disk.new }) }
{
    let line = match sealed_line(alloc, add, source, disk) {
        Ok(line) => line,
        Err(SealFault::Untaken { fault }) => return Err(SealFault::Untaken { fault }),
        Err(SealFault::Unsigned { fault }) => return Err(SealFault::Unsigned { fault }),
        Err(SealFault::SinkFailed) => unreachable!(),
    };
    match write_all(sink, line.as_slice()) {
        Ok(()) => Ok(()),
        Err(Failed) => Err(SealFault::SinkFailed),
    }
}
