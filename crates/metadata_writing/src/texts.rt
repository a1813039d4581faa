//! Texts as JSON values.

ghost use Rattle.std.specs.Prelude.{◌≡◌, ◌↔◌, ◌++◌, IfOk, IsErrOf, IsTrue, IsUtf8};
ghost use Rattle.serde_json.specs.Data.{string};
ghost use Rattle.serde_json.specs.View.{view};
ghost use Rattle.metadata_writing.specs.Texts.{HasText, pattern_text};
ghost use Rattle.metadata_writing.specs.Written.{hex_data, key_kind, pattern_data};

use crate::WriteFault;
use json_fields::text_value;
use octets::{Memory, Octets};
use ref_patterns::Pattern;
use serde_json::Value;
use std::alloc::Global;
use std::str;

// Whether bytes are text in UTF-8.
fn is_utf8(bytes: &[u8]) -> bool
    ensures { IsTrue result ↔ IsUtf8 bytes.now }
{
    match str::from_utf8(bytes) {
        Ok(_) => true,
        Err(_) => false,
    }
}

/// A text. `Unwritable` comes only where it is not UTF-8.
pub fn text_json(alloc: Global, bytes: &[u8]) -> Result<Value, WriteFault>
    ensures written { IfOk result (λ value. view value ≡ string bytes.now) }
    ensures unwritable { IsErrOf result WriteFault.Unwritable → IsUtf8 bytes.now → ⊥ }
{
    if !is_utf8(bytes) {
        return Err(WriteFault::Unwritable);
    }
    match text_value(alloc, bytes) {
        Ok(value) => Ok(value),
        Err(Memory) => Err(WriteFault::Memory),
    }
}

/// Bytes in lower-case hexadecimal.
pub fn hex_json(alloc: Global, bytes: &[u8]) -> Result<Value, Memory>
    ensures { IfOk result (λ value. view value ≡ hex_data bytes.now) }
{
    let text = hex::encode(alloc, bytes)?;
    Ok(Value::from(text))
}

/// What a key of these public bytes is called.
pub fn key_kind(public: &[u8]) -> &'static str
    ensures { result.now ≡ key_kind public.now }
{
    if public.len() == 60 { "hss" } else { "lms" }
}

/// The text of a pattern.
pub fn pattern_json(alloc: Global, pattern: &Pattern) -> Result<Value, WriteFault>
    ensures written { IfOk result (λ value. view value ≡ pattern_data pattern.now) }
    ensures unwritable { IsErrOf result WriteFault.Unwritable → HasText pattern.now → ⊥ }
{
    let text = pattern_text(alloc, pattern)?;
    text_json(alloc, text.as_slice())
}

fn pattern_text(alloc: Global, pattern: &Pattern) -> Result<Octets, Memory>
    ensures { IfOk result (λ text. text ≡ pattern_text pattern.now) }
{
    let mut text = Octets::from_slice(alloc, pattern.space().prefix())?;
    text.append(pattern.glob())?;
    Ok(text)
}
