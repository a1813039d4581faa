//! From a value to bytes.

ghost use Rattle.std.specs.Prelude.{◌≡◌, ◌≤◌, IfOk, IsUtf8, Some, false};
ghost use Rattle.serde_json.specs.Data.{depth, string};
ghost use Rattle.serde_json.specs.Read.{max_depth};
ghost use Rattle.serde_json.specs.View.{view};
ghost use Rattle.serde_json.specs.Written.{compact_text, has_float};
ghost use Rattle.json_fields.specs.Json.{json_of};

use octets::{Memory, Octets};
use serde_json::Value;
use std::alloc::Global;
use std::str;

// Bytes that are a text, as a text.
fn text_of(bytes: &[u8]) -> &str
    requires { IsUtf8 bytes.now }
    ensures { result.now ≡ bytes.now }
{
    match str::from_utf8(bytes) {
        Ok(text) => text,
        Err(_) => unreachable!(),
    }
}

/// The value that is a text in UTF-8.
pub fn text_value(alloc: Global, bytes: &[u8]) -> Result<Value, Memory>
    requires { IsUtf8 bytes.now }
    ensures { IfOk result (λ value. view value ≡ string bytes.now) }
{
    match Value::try_from_str(alloc, text_of(bytes)) {
        Ok(value) => Ok(value),
        Err(_) => Err(Memory),
    }
}

/// The text of a value with nothing between its tokens. A value nests at most 127 levels deep to be read again.
pub fn write(alloc: Global, value: &Value) -> Result<Octets, Memory>
    ensures exact { IfOk result (λ text. has_float (view value.now) ≡ false → text ≡ compact_text (view value.now)) }
    ensures reads_back { IfOk result (λ text. depth (view value.now) ≤ max_depth → json_of text ≡ Some (view value.now)) }
{
    match value.to_vec(alloc) {
        Ok(text) => Ok(Octets::from_vec(text)),
        Err(_) => Err(Memory),
    }
}
