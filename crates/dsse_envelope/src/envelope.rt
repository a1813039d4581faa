//! Envelopes and their signatures.

ghost use Rattle.std.specs.Prelude.{◌≡◌, ◌⊎◌, IfOk, IfErr, Ok, Err};
ghost use Rattle.dsse_envelope.specs.Envelopes.{reading};
ghost use Rattle.dsse_envelope.specs.Written.{IsWritable, text_of};
ghost use Rattle.dsse_envelope.specs.declared.envelope.EnvelopeFault.TheVariants as fault;

use crate::reading::read_value;
use crate::writing::envelope_value;
use json_fields::{ParseFault, parse, write};
use octets::{Copied, Items, Memory, Octets};
use std::alloc::Global;

/// A signature: the id of its key, which may be the empty text, and its bytes.
#[derive(Drop)]
pub struct Signature {
    pub keyid: Octets,
    pub sig: Octets,
}

impl Copied for Signature {
    fn copied(&self) -> Result<Signature, Memory> {
        Ok(Signature {
            keyid: self.keyid.copy()?,
            sig: self.sig.copy()?,
        })
    }
}

/// A list of signatures.
pub type Signatures = Items<Signature>;

/// An envelope: what is signed, its type, and the signatures.
#[derive(Drop)]
pub struct Envelope {
    pub payload_type: Octets,
    pub payload: Octets,
    pub signatures: Signatures,
}

/// Why a text is no envelope; the smaller number wins, but a bad signature is told only where their count is good.
#[derive(Clone, Copy, Debug, PartialEq, Eq, Drop)]
pub enum EnvelopeFault {
    /// The text is no JSON.
    NotJson,
    /// The value is no object; `payload`, `payloadType` or `signatures` is not there or of another kind; or, where
    /// there are 1 to 64 signatures, one is no object, has no `sig` that is a text, or a `keyid` that is none.
    MissingField,
    /// There are not 1 to 64 signatures; how many there are.
    BadCount { count: usize },
    /// The payload or a signature does not decode.
    BadBase64,
    Memory,
}

impl From<Memory> for EnvelopeFault {
    ghost from_gives = { λ _ e. e ≡ fault.Memory };

    fn from(_error: Memory) -> EnvelopeFault {
        EnvelopeFault::Memory
    }
}

impl Envelope {
    /// The envelope that a text is (DSSE's JSON envelope). `payload` and each `sig` are base64 in the standard or the
    /// URL-safe alphabet, with padding; a `keyid` that is not there is the empty text; other fields are passed over.
    pub fn read(alloc: Global, text: &[u8]) -> Result<Envelope, EnvelopeFault>
        ensures ok { IfOk result (λ envelope. reading text.now ≡ Ok envelope) }
        ensures writable { IfOk result IsWritable }
        ensures refused { IfErr result (λ e. (e ≡ fault.Memory) ⊎ (reading text.now ≡ Err e)) }
    {
        let value = match parse(alloc, text) {
            Ok(value) => value,
            Err(ParseFault::NotJson) => return Err(EnvelopeFault::NotJson),
            Err(ParseFault::Memory) => return Err(EnvelopeFault::Memory),
        };
        read_value(alloc, &value)
    }

    /// The compact JSON text of the envelope: the fields stand in the order `payload`, `payloadType`, `signatures`, and
    /// in a signature `keyid`, `sig`; bytes are standard base64 with padding. It asks for 1 to 64 signatures, and for a
    /// type and ids of keys that are UTF-8.
    pub fn write(&self, alloc: Global) -> Result<Octets, Memory>
        requires { IsWritable self.now }
        ensures exact { IfOk result (λ text. text ≡ text_of self.now) }
        ensures reads_back { IfOk result (λ text. reading text ≡ Ok self.now) }
    {
        let value = envelope_value(alloc, self)?;
        write(alloc, &value)
    }
}
