//! Putting a key's signature into an envelope.

ghost use Rattle.std.specs.Prelude.{◌≡◌, ◌+◌, ◌++◌, IfOk, IsErrOf, IsOk, OnErr, OnOk, drop, false, take, true};
ghost use Rattle.dsse_envelope.specs.Sealing.{has_room, place_of, put_at, sealed, with_signature};
ghost use Rattle.dsse_envelope.specs.declared.sealing.SealFault.TheVariants as fault;

use crate::reading::MOST_SIGNATURES;
use crate::{Envelope, Signature, Signatures};
use octets::{Copied, Memory};
use std::alloc::Global;

/// Why a signature was not put into an envelope.
#[derive(Clone, Copy, Debug, PartialEq, Eq, Drop)]
pub enum SealFault {
    /// There are 64 signatures, and none is of this key.
    Full,
    Memory,
}

impl From<Memory> for SealFault {
    ghost from_gives = { λ _ e. e ≡ fault.Memory };

    fn from(_error: Memory) -> SealFault {
        SealFault::Memory
    }
}

// The place of the first signature of the key.
fn place_of(keyid: &[u8], signatures: &[Signature]) -> Option<usize>
    ensures { result ≡ place_of keyid.now signatures.now }
{
    signatures
        .iter()
        .position(|signature| signature.keyid.as_slice() == keyid)
}

// Adds copies at the end.
fn append(signatures: &mut Signatures, more: &[Signature]) -> Result<(), Memory>
    ensures { OnOk result (signatures.new ≡ signatures.old ++ more.now) }
{
    'more: for signature in more {
        signatures.push(signature.copied()?)?;
    }
    Ok(())
}

// The signatures with one at this place, or else at the end.
fn put_at(
    alloc: Global,
    signature: Signature,
    signatures: &[Signature],
    at: Option<usize>,
) -> Result<Signatures, Memory>
    ensures { IfOk result (λ list. list ≡ put_at signature signatures.now at) }
{
    let mut list = Signatures::new(alloc);
    let Some(at) = at else {
        append(&mut list, signatures)?;
        list.push(signature)?;
        return Ok(list);
    };
    append(&mut list, front_of(signatures, at))?;
    list.push(signature)?;
    append(&mut list, rest_of(signatures, at))?;
    Ok(list)
}

// What stands before a place.
fn front_of(signatures: &[Signature], at: usize) -> &[Signature]
    ensures { result.now ≡ take at signatures.now }
{
    signatures.get(..at).unwrap_or(signatures)
}

// What stands after a place.
fn rest_of(signatures: &[Signature], at: usize) -> &[Signature]
    ensures { result.now ≡ drop (at + 1) signatures.now }
{
    if at < signatures.len() {
        return &signatures[at + 1..];
    }
    &[]
}

impl Envelope {
    /// Puts a signature in place of the first whose `keyid` is the same, or else at the end; all others stay. `Full`
    /// comes exactly where there are 64 signatures or more and none has this `keyid`. After a refusal the envelope is
    /// as before.
    pub fn seal(&mut self, alloc: Global, signature: Signature) -> Result<(), SealFault>
        ensures sealed { OnOk result (self.new ≡ sealed signature self.old) }
        ensures room { IsOk result → has_room signature.keyid self.old.signatures ≡ true }
        ensures full { IsErrOf result SealFault.Full → has_room signature.keyid self.old.signatures ≡ false }
        ensures refused { has_room signature.keyid self.old.signatures ≡ false → IsErrOf result SealFault.Full }
        ensures same { OnErr result (self.new ≡ self.old) }
    {
        let at = place_of(signature.keyid.as_slice(), self.signatures.as_slice());
        if at.is_none() && self.signatures.len() >= MOST_SIGNATURES {
            return Err(SealFault::Full);
        }
        let signatures = put_at(alloc, signature, self.signatures.as_slice(), at)?;
        self.signatures = signatures;
        Ok(())
    }
}
