//! Signing an envelope.

ghost use Rattle.std.specs.Prelude.{◌≡◌, ◌≤◌, ℕ, List, true, false, length, replicate, IfOk, IsOkAnd, IsUtf8};
ghost use Rattle.std.specs.Prelude.{MatchBool};
ghost use Rattle.dsse_envelope.specs.Sealing.{has_room, place_of, sealed};
ghost use Rattle.dsse_envelope.specs.Written.{HasTextId, IsWritable, text_of};
ghost use Rattle.commands_keys.specs.Seals.{Fits, FitsNot, IsSealable, id_text, signature_of, signed_text};

use dsse_envelope::{Envelope, Signature, pae};
use leaf_journal::OpenKey;
use octets::{Memory, Octets};
use root_metadata::key_id;
use std::alloc::Global;

/// The most bytes of the text of an envelope.
pub const LARGEST_TEXT: usize = 1048576;

/// The id of an open key as text: lower-case hexadecimal.
pub fn id_text(alloc: Global, key: &OpenKey) -> Result<Octets, Memory>
    ensures text { IfOk result (λ text. text ≡ id_text key.now.signer.secret) }
    ensures utf8 { IfOk result IsUtf8 }
{
    let id = key_id(key.public_bytes());
    let text = hex::encode(alloc, id.0)?;
    Octets::from_slice(alloc, text.as_bytes())
}

// The place of the first signature of this key.
fn place_of(keyid: &[u8], signatures: &[Signature]) -> Option<usize>
    ensures { result ≡ place_of keyid.now signatures.now }
{
    signatures
        .iter()
        .position(|signature| signature.keyid.as_slice() == keyid)
}

/// Whether a signature of this key has a place among these: there is one of it, or there are fewer than 64.
pub fn has_place(keyid: &[u8], signatures: &[Signature]) -> bool
    ensures { result ≡ has_room keyid.now signatures.now }
{
    match place_of(keyid, signatures) {
        Some(_) => true,
        None => signatures.len() < 64,
    }
}

/// What is signed of an envelope.
pub fn signed_text(alloc: Global, envelope: &Envelope) -> Result<Octets, Memory>
    ensures { IfOk result (λ text. text ≡ signed_text envelope.now) }
{
    pae(
        alloc,
        envelope.payload_type.as_slice(),
        envelope.payload.as_slice(),
    )
}

/// The envelope with a signature in place of the first of its key, or else at the end.
pub fn sealed(
    alloc: Global,
    mut envelope: Envelope,
    signature: Signature,
) -> Result<Envelope, Memory>
    requires sealable { IsSealable envelope }
    requires id { HasTextId signature }
    requires place { has_room signature.keyid envelope.signatures ≡ true }
    ensures sealed { IfOk result (λ e. e ≡ sealed signature envelope) }
    ensures writable { IfOk result IsWritable }
{
    match envelope.seal(alloc, signature) {
        Ok(()) => Ok(envelope),
        Err(dsse_envelope::SealFault::Full) => unreachable!(),
        Err(dsse_envelope::SealFault::Memory) => Err(Memory),
    }
}

fn copy_of(envelope: &Envelope) -> Result<Envelope, Memory>
    ensures { IfOk result (λ copy. copy ≡ envelope.now) }
{
    Ok(Envelope {
        payload_type: envelope.payload_type.copy()?,
        payload: envelope.payload.copy()?,
        signatures: envelope.signatures.copy()?,
    })
}

// So many zeros.
fn zeros(alloc: Global, len: usize) -> Result<Octets, Memory>
    ensures { IfOk result (λ bytes. bytes ≡ replicate len 0) }
{
    match vec![in alloc; 0u8; len] {
        Ok(bytes) => Ok(Octets::from_vec(bytes)),
        Err(_) => Err(Memory),
    }
}

// The length of the text of the envelope with a signature of this key in its place, of so many zeros.
fn len_with(alloc: Global, envelope: &Envelope, keyid: &Octets, len: usize) -> Result<usize, Memory>
    requires sealable { IsSealable envelope.now }
    requires id { IsUtf8 keyid.now }
    requires place { has_room keyid.now envelope.now.signatures ≡ true }
    ensures { IfOk result (λ long. length (text_of (sealed (signature_of keyid.now (replicate len 0)) envelope.now))
        ≡ long) }
{
    let signature = Signature {
        keyid: keyid.copy()?,
        sig: zeros(alloc, len)?,
    };
    let trial = sealed(alloc, copy_of(envelope)?, signature)?;
    let text = trial.write(alloc)?;
    Ok(text.len())
}

/// Whether the text of an envelope with a signature of this key, of so many bytes, is at most 1 MiB.
pub fn fits_with(
    alloc: Global,
    envelope: &Envelope,
    keyid: &Octets,
    len: usize,
) -> Result<bool, Memory>
    requires sealable { IsSealable envelope.now }
    requires id { IsUtf8 keyid.now }
    requires place { has_room keyid.now envelope.now.signatures ≡ true }
    ensures fits { IfOk result (λ fits. fits ≡ true → Fits keyid.now len envelope.now) }
    ensures not { IfOk result (λ fits. fits ≡ false → FitsNot keyid.now len envelope.now) }
{
    let long = len_with(alloc, envelope, keyid, len)?;
    Ok(long <= LARGEST_TEXT)
}
