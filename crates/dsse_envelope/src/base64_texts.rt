//! Base64 texts.

ghost use Rattle.std.specs.Prelude.{◌≡◌, ◌⊎◌, IfOk, IfErr, Some, None, string_bytes};
ghost use Rattle.dsse_envelope.specs.Base64.{decoded};
ghost use Rattle.dsse_envelope.specs.Written.{base64_text};
ghost use Rattle.dsse_envelope.specs.declared.base64_texts.TextFault.TheVariants as fault;

use base64::DecodeAllocError;
use base64::engine::general_purpose::{STANDARD, URL_SAFE};
use octets::{Memory, Octets};
use std::alloc::Global;

/// Why a text was not decoded.
#[derive(Clone, Copy, Debug, PartialEq, Eq, Drop)]
pub(crate) enum TextFault {
    BadBase64,
    Memory,
}

impl From<Memory> for TextFault {
    ghost from_gives = { λ _ e. e ≡ fault.Memory };

    fn from(_error: Memory) -> TextFault {
        TextFault::Memory
    }
}

/// The bytes of a base64 text in the standard or the URL-safe alphabet, with padding.
pub(crate) fn decode(alloc: Global, text: &[u8]) -> Result<Octets, TextFault>
    ensures ok { IfOk result (λ bytes. decoded text.now ≡ Some bytes) }
    ensures refused { IfErr result (λ e. (e ≡ fault.Memory) ⊎ ((e ≡ fault.BadBase64) × (decoded text.now ≡ None))) }
{
    match STANDARD.decode(alloc, text) {
        Ok(bytes) => return Ok(Octets::from_vec(bytes)),
        Err(DecodeAllocError::OutOfMemory) => return Err(TextFault::Memory),
        Err(DecodeAllocError::DecodeError(_)) => {}
    }
    match URL_SAFE.decode(alloc, text) {
        Ok(bytes) => Ok(Octets::from_vec(bytes)),
        Err(DecodeAllocError::OutOfMemory) => Err(TextFault::Memory),
        Err(DecodeAllocError::DecodeError(_)) => Err(TextFault::BadBase64),
    }
}

/// The standard base64 text of bytes.
pub(crate) fn encode(alloc: Global, bytes: &[u8]) -> Result<String, Memory>
    ensures text { IfOk result (λ text. string_bytes text ≡ base64_text bytes.now) }
    ensures decodes { IfOk result (λ text. decoded (base64_text bytes.now) ≡ Some bytes.now) }
{
    match STANDARD.encode(alloc, bytes) {
        Ok(text) => Ok(text),
        Err(_) => Err(Memory),
    }
}
