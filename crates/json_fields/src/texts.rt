//! Bytes, ids and numbers as values.

ghost use Rattle.std.specs.Prelude.{◌≡◌, IfOk, IsUtf8};
ghost use Rattle.serde_json.specs.Data.{number, string, unsigned};
ghost use Rattle.serde_json.specs.View.{view};
ghost use Rattle.octets.specs.Escaped.{escaped};
ghost use Rattle.json_fields.specs.Values.{escaped_data, hex_data, text_data};

use crate::text_value;
use octets::{Memory, Octets, escaped_text};
use serde_json::{Map, Value, put};
use std::alloc::Global;
use std::str;

// The printable word of some bytes.
fn printable(alloc: Global, bytes: &[u8]) -> Result<Octets, Memory>
    ensures word { IfOk result (λ text. text ≡ escaped bytes.now) }
    ensures ascii { IfOk result IsUtf8 }
{
    escaped_text(alloc, bytes)
}

// Bytes that are no text: an object with their printable word.
fn escaped_json(alloc: Global, bytes: &[u8]) -> Result<Value, Memory>
    ensures { IfOk result (λ value. view value ≡ escaped_data bytes.now) }
{
    let word = printable(alloc, bytes)?;
    let word = text_value(alloc, word.as_slice())?;
    let mut fields = Map::new(alloc);
    put(&mut fields, alloc, "escaped", word)?;
    Ok(Value::Object(fields))
}

/// Bytes as a text where they are UTF-8, and else as an object whose field `escaped` is their printable word.
#[tactic(auto, using(crate::proofs::Wording::as_text, crate::proofs::Wording::as_escaped))]
pub fn text_json(alloc: Global, bytes: &[u8]) -> Result<Value, Memory>
    ensures { IfOk result (λ value. view value ≡ text_data bytes.now) }
{
    match str::from_utf8(bytes) {
        Ok(_) => text_value(alloc, bytes),
        Err(_) => escaped_json(alloc, bytes),
    }
}

/// A text of this program's own.
pub fn word_json(alloc: Global, word: &str) -> Result<Value, Memory>
    ensures { IfOk result (λ value. view value ≡ string word.now) }
{
    match String::from_str(alloc, word) {
        Ok(text) => Ok(Value::from(text)),
        Err(_) => Err(Memory),
    }
}

/// Bytes in lower-case hexadecimal.
pub fn hex_json(alloc: Global, bytes: &[u8]) -> Result<Value, Memory>
    ensures { IfOk result (λ value. view value ≡ hex_data bytes.now) }
{
    let text = hex::encode(alloc, bytes)?;
    Ok(Value::from(text))
}

/// A number.
pub fn number_json(value: u64) -> Value
    ensures { view result ≡ number (unsigned value) }
{
    Value::from(value)
}
