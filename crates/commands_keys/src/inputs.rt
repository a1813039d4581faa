//! What is sealed: what the source gives.

ghost use Rattle.std.specs.Prelude.{◌≡◌, IfOk, IfErr, true};
ghost use Rattle.octets.specs.Causes.{HasCause};
ghost use Rattle.commands_keys.specs.Seals.{IsSealable};
ghost use Rattle.commands_keys.specs.Inputs.{InputEnds, IsGiven, WhyNotGiven, source_failed, unsigned};

use dsse_envelope::{Envelope, EnvelopeFault, Signatures};
use edge_io::{ReadFault, Source, read_all};
use octets::{Memory, Octets};
use std::alloc::Global;

/// Why there is nothing to seal.
#[derive(Clone, Copy, Debug, PartialEq, Eq, Drop)]
pub enum InputFault {
    /// The source gave more than 1 MiB.
    TooLong,
    /// What the source gave is no envelope.
    NoEnvelope { fault: EnvelopeFault },
    SourceFailed,
    Memory,
}

/// The most bytes of a payload, and of an envelope.
pub const LARGEST_INPUT: usize = 1 << 20;

// The type of the payloads of a policy's metadata.
const PAYLOAD_TYPE: &str = "application/vnd.gittuf+json";

// A payload that nobody has signed.
fn unsigned(alloc: Global, payload: Octets) -> Result<Envelope, Memory>
    ensures envelope { IfOk result (λ envelope. envelope ≡ unsigned payload) }
    ensures sealable { IfOk result IsSealable }
{
    Ok(Envelope {
        payload_type: Octets::from_slice(alloc, PAYLOAD_TYPE.as_bytes())?,
        payload,
        signatures: Signatures::new(alloc),
    })
}

// The envelope that bytes are.
fn envelope_in(alloc: Global, bytes: &[u8]) -> Result<Envelope, InputFault>
    ensures given { IfOk result (IsGiven true bytes.now) }
    ensures sealable { IfOk result IsSealable }
    ensures why { IfErr result (WhyNotGiven true bytes.now) }
{
    match Envelope::read(alloc, bytes) {
        Ok(envelope) => Ok(envelope),
        Err(EnvelopeFault::Memory) => Err(InputFault::Memory),
        Err(fault) => Err(InputFault::NoEnvelope { fault }),
    }
}

fn given_by(alloc: Global, add: bool, bytes: Octets) -> Result<Envelope, InputFault>
    ensures given { IfOk result (IsGiven add bytes) }
    ensures sealable { IfOk result IsSealable }
    ensures why { IfErr result (WhyNotGiven add bytes) }
{
    if add {
        return envelope_in(alloc, bytes.as_slice());
    }
    match unsigned(alloc, bytes) {
        Ok(envelope) => Ok(envelope),
        Err(Memory) => Err(InputFault::Memory),
    }
}

/// Reads a source to its end, and gives what is to be sealed: with `add` the envelope that was read, and else the
/// payload that was read with the type of a policy's metadata and no signature.
pub fn take_envelope<S: Source>(
    alloc: Global,
    add: bool,
    source: &mut S,
) -> Result<Envelope, InputFault>
    ensures ends { InputEnds add (S.left source.old) (S.left source.new) result }
    ensures sealable { IfOk result IsSealable }
    ensures cause { HasCause source_failed (S.faults source.old) (S.faults source.new) result }
{
    let bytes = match read_all(alloc, source, LARGEST_INPUT) {
        Ok(bytes) => bytes,
        Err(ReadFault::TooLong) => return Err(InputFault::TooLong),
        Err(ReadFault::Failed) => return Err(InputFault::SourceFailed),
        Err(ReadFault::Memory) => return Err(InputFault::Memory),
    };
    match given_by(alloc, add, bytes) {
        Ok(envelope) => Ok(envelope),
        Err(InputFault::Memory) => Err(InputFault::Memory),
        Err(fault) => Err(fault),
    }
}
