//! Who signed an envelope.

ghost use Rattle.std.specs.Prelude.{◌≡◌, ◌&&◌, IfOk};
ghost use Rattle.lms_keys.specs.Deciding.{is_good};
ghost use Rattle.approvals.specs.Signers.{env_signers, is_by, signed_by, speaks_for};

use dsse_envelope::{Envelope, Signature, pae};
use git_object::KeyId;
use lms_keys::verify_any;
use octets::Memory;
use root_metadata::{Items, Key, KeyIds, Keys, id_set};
use std::alloc::Global;

// Whether the signature names the key of this id, or no key.
fn speaks_for(signature: &Signature, id: &KeyId) -> bool
    ensures { result ≡ speaks_for signature.now id.now }
{
    let keyid = signature.keyid.as_slice();
    keyid.is_empty() || keyid == id.to_hex().as_slice()
}

// Whether the signature is this key's over the text.
fn is_by(text: &[u8], key: &Key, signature: &Signature) -> bool
    ensures { result ≡ is_by text.now key.now signature.now }
{
    speaks_for(signature, &key.id)
        && verify_any(key.public.as_slice(), text, signature.sig.as_slice())
}

// Whether some signature is this key's over the text.
fn signed_by(text: &[u8], key: &Key, signatures: &[Signature]) -> bool
    ensures { result ≡ signed_by text.now signatures.now key.now }
{
    signatures
        .iter()
        .any(|signature| is_by(text, key, signature))
}

/// The ids of those keys of which some signature of the envelope is, as a set: a key that signed twice counts once. A
/// signature speaks for the key whose id it names in lower-case hexadecimal, and one without a key id for each key
/// (DSSE).
pub fn env_signers(alloc: Global, envelope: &Envelope, keys: &Keys) -> Result<KeyIds, Memory>
    ensures { IfOk result (λ ids. ids ≡ env_signers envelope.now keys.now) }
{
    let text = pae(
        alloc,
        envelope.payload_type.as_slice(),
        envelope.payload.as_slice(),
    )?;
    let mut ids = Items::new(alloc);
    'keys: for key in keys.as_slice() {
        if signed_by(text.as_slice(), key, envelope.signatures.as_slice()) {
            ids.push(key.id)?;
        }
    }
    id_set(alloc, ids.as_slice())
}
