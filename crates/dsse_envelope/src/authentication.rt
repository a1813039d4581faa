//! What the signatures of an envelope are over.

ghost use Rattle.std.specs.Prelude.{◌≡◌, IfOk};
ghost use Rattle.dsse_envelope.specs.Authentication.{pae};

use itoa::Buffer;
use octets::{Memory, Octets};
use std::alloc::Global;

/// The bytes that are signed (DSSE's pre-authentication encoding): `DSSEv1`, a space, the length of the type in
/// decimal, a space, the type, a space, the length of the body in decimal, a space, the body.
pub fn pae(alloc: Global, payload_type: &[u8], body: &[u8]) -> Result<Octets, Memory>
    ensures { IfOk result (λ text. text ≡ pae payload_type.now body.now) }
{
    let mut digits = Buffer::new();
    let mut text = Octets::from_slice(alloc, b"DSSEv1 ")?;
    text.append(digits.format(payload_type.len()).as_bytes())?;
    text.append(b" ")?;
    text.append(payload_type)?;
    text.append(b" ")?;
    text.append(digits.format(body.len()).as_bytes())?;
    text.append(b" ")?;
    text.append(body)?;
    Ok(text)
}
