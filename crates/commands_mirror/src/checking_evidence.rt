//! The command `evidence-check`.

ghost use Rattle.std.specs.Prelude.{◌≡◌, ◌++◌, Some, None, codes, decimal, IfOk, OnOk};
ghost use Rattle.octets.specs.Causes.{HasCause};
ghost use Rattle.worlds.specs.Counts.{Faults, IsCounted};
ghost use Rattle.commands_mirror.specs.Checking.{CheckEnds, ReadEnds, check_ending, check_failed, found_ending};
ghost use Rattle.commands_mirror.specs.Lines.{finding_lines, found_reuse, lines_of};

use edge_io::{Failed, ReadFault, Sink, Source, read_all, write_all};
use evidence::{Dossier, DossierFault, Finding, find};
use git_object::{Memory, Octets};
use itoa::Buffer;
use std::alloc::Global;
use worlds::{Ending, Part, Refusal};

/// The most bytes of a dossier that is read: 64 MiB.
pub const LARGEST_DOSSIER: usize = 1 << 26;

/// Why it is not known what a dossier shows.
#[derive(Clone, Copy, Debug, PartialEq, Eq)]
pub enum CheckFault {
    /// The source gave more than 64 MiB.
    TooLong,
    /// What it gave is no dossier; where its first line begins that is not as wanted, or whose body is not.
    Malformed { at: u64 },
    SourceFailed,
    SinkFailed,
    Memory,
}

fn found_ending(finding: &Finding) -> Ending
    ensures { result ≡ found_ending finding.now.fork finding.now.reuse }
{
    match finding.fork {
        Some(_) => Ending::Done,
        None => match finding.reuse {
            Some(_) => Ending::Done,
            None => Ending::Differs,
        },
    }
}

/// How the program ends: status 0 where something is found, 1 where nothing is.
pub fn check_ending(outcome: &Result<Finding, CheckFault>) -> Ending
    ensures { result ≡ check_ending outcome.now }
{
    match outcome {
        Ok(finding) => found_ending(finding),
        Err(CheckFault::TooLong) => Ending::Refused {
            refusal: Refusal::Input,
        },
        Err(CheckFault::Malformed { at: _ }) => Ending::Refused {
            refusal: Refusal::Input,
        },
        Err(CheckFault::SourceFailed) => Ending::Refused {
            refusal: Refusal::Fault { part: Part::Source },
        },
        Err(CheckFault::SinkFailed) => Ending::Refused {
            refusal: Refusal::Fault { part: Part::Sink },
        },
        Err(CheckFault::Memory) => Ending::Refused {
            refusal: Refusal::Memory,
        },
    }
}

// The dossier that the source gives.
fn read_dossier<S: Source>(alloc: Global, source: &mut S) -> Result<Dossier, CheckFault>
    ensures ends { ReadEnds (S.left source.old) (S.left source.new) result }
    ensures cause { HasCause check_failed (S.faults source.old) (S.faults source.new) result }
{
    let bytes = match read_all(alloc, source, LARGEST_DOSSIER) {
        Ok(bytes) => bytes,
        Err(ReadFault::TooLong) => return Err(CheckFault::TooLong),
        Err(ReadFault::Failed) => return Err(CheckFault::SourceFailed),
        Err(ReadFault::Memory) => return Err(CheckFault::Memory),
    };
    match Dossier::read(alloc, bytes.as_slice()) {
        Ok(dossier) => Ok(dossier),
        Err(DossierFault::Malformed { at }) => Err(CheckFault::Malformed { at }),
        Err(DossierFault::Memory) => Err(CheckFault::Memory),
    }
}

// Adds a word, a number and a line feed.
fn append_line(text: &mut Octets, word: &[u8], number: u64) -> Result<(), Memory>
    ensures { OnOk result (text.new ≡ text.old ++ (word.now ++ (decimal number ++ codes "\n"))) }
{
    let mut digits = Buffer::new();
    text.append(word)?;
    text.append(digits.format(number).as_bytes())?;
    text.append(b"\n")
}

// Adds the line of a leaf, where there is one.
fn append_reuse(text: &mut Octets, leaf: Option<u32>) -> Result<(), Memory>
    ensures { OnOk result (text.new ≡ text.old ++ found_reuse leaf) }
{
    match leaf {
        Some(leaf) => append_line(text, b"reuse ", u64::from(leaf)),
        None => Ok(()),
    }
}

// The lines of a fork, and of a leaf where there is one.
fn fork_lines(alloc: Global, number: u64, leaf: Option<u32>) -> Result<Octets, Memory>
    ensures { IfOk result (λ text. text ≡ lines_of (Some number) leaf) }
{
    let mut text = Octets::new(alloc);
    append_line(&mut text, b"fork ", number)?;
    append_reuse(&mut text, leaf)?;
    Ok(text)
}

// The line of a leaf, or that there is nothing.
fn reuse_lines(alloc: Global, leaf: Option<u32>) -> Result<Octets, Memory>
    ensures { IfOk result (λ text. text ≡ lines_of None leaf) }
{
    let mut text = Octets::new(alloc);
    match leaf {
        Some(leaf) => append_line(&mut text, b"reuse ", u64::from(leaf))?,
        None => return Octets::from_slice(alloc, b"nothing\n"),
    }
    Ok(text)
}

// The lines that say what is found.
fn lines_of(alloc: Global, finding: &Finding) -> Result<Octets, Memory>
    ensures { IfOk result (λ text. text ≡ finding_lines finding.now) }
{
    match finding.fork {
        Some(number) => fork_lines(alloc, number, finding.reuse),
        None => reuse_lines(alloc, finding.reuse),
    }
}

/// Reads a dossier of at most 64 MiB, and prints what it shows of the holder of its key: `fork` and the number of both
/// entries, `reuse` and the number of the leaf, each where it is found, or `nothing`.
pub fn evidence_check<S: Source, K: Sink>(
    alloc: Global,
    source: &mut S,
    sink: &mut K,
) -> Result<Finding, CheckFault>
    ensures ends { CheckEnds (S.left source.old) (S.left source.new) (K.contents sink.old) (K.contents sink.new)
        result }
    ensures counted { (rest : Faults) → IsCounted (check_ending result)
        (record rest { source = S.faults source.old; sink = K.faults sink.old })
        (record rest { source = S.faults source.new; sink = K.faults sink.new }) }
{
    let dossier = match read_dossier(alloc, source) {
        Ok(dossier) => dossier,
        Err(fault) => return Err(fault),
    };
    let Ok(finding) = find(alloc, &dossier) else {
        return Err(CheckFault::Memory);
    };
    let Ok(text) = lines_of(alloc, &finding) else {
        return Err(CheckFault::Memory);
    };
    match write_all(sink, text.as_slice()) {
        Ok(()) => Ok(finding),
        Err(Failed) => Err(CheckFault::SinkFailed),
    }
}
