//! From bytes to a value.

ghost use Rattle.std.specs.Prelude.{◌≡◌, ◌⊎◌, IfOk, IfErr, Some, None};
ghost use Rattle.serde_json.specs.View.{view};
ghost use Rattle.json_fields.specs.Json.{json_of};
ghost use Rattle.json_fields.specs.declared.parsing.ParseFault.TheVariants as fault;

use serde_json::Value;
use std::alloc::Global;

/// Why bytes were not read as a value.
#[derive(Clone, Copy, Debug, PartialEq, Eq, Drop)]
pub enum ParseFault {
    /// They are no JSON.
    NotJson,
    Memory,
}

/// The JSON value that bytes are (RFC 8259). `NotJson` comes exactly where they are none, want of memory aside.
pub fn parse(alloc: Global, text: &[u8]) -> Result<Value, ParseFault>
    ensures ok { IfOk result (λ value. json_of text.now ≡ Some (view value)) }
    ensures refused { IfErr result (λ e. (e ≡ fault.Memory) ⊎ ((e ≡ fault.NotJson) × (json_of text.now ≡ None))) }
{
    match Value::from_slice(alloc, text) {
        Ok(value) => Ok(value),
        Err(error) => {
            if error.is_memory() {
                return Err(ParseFault::Memory);
            }
            Err(ParseFault::NotJson)
        }
    }
}
