//! Which envelope is an approval.

ghost use Rattle.std.specs.Prelude.{◌≡◌, ◌&&◌, false, IfOk, IsOk};
ghost use Rattle.std.specs.Option.{option_map};
ghost use Rattle.std.specs.Str.{bytes_eq};
ghost use Rattle.hex.specs.Hex.{encode_lower};
ghost use Rattle.json_fields.specs.Json.{json_of};
ghost use Rattle.serde_json.specs.View.{view};
ghost use Rattle.approvals.specs.Approvals.{approval_type, has_fields, is_approval, is_text, lets_go};

use dsse_envelope::Envelope;
use git_object::{ObjectId, RefName};
use json_fields::{ParseFault, parse, text_in};
use octets::Memory;
use serde_json::Value;
use std::alloc::Global;

/// The type of an approval's envelope.
pub const APPROVAL_TYPE: &[u8] = b"application/vnd.gittuf+json";

// Whether there is a text, and it is this one.
fn is_text(text: &[u8], found: Option<&str>) -> bool
    ensures { result ≡ is_text text.now (option_map (λ text. text.now) found.entry) }
{
    match found {
        Some(found) => found.as_bytes() == text,
        None => false,
    }
}

// Whether a value has the four fields of an approval.
fn has_fields(value: &Value, name: &RefName, from: &ObjectId, tree: &ObjectId) -> bool
    ensures { result ≡ has_fields name.now from.now tree.now (view value.now) }
{
    is_text(b"approval", text_in(value, "type"))
        && is_text(name.text(), text_in(value, "targetRef"))
        && is_text(&from.to_hex(), text_in(value, "fromRevisionID"))
        && is_text(&tree.to_hex(), text_in(value, "targetTreeID"))
}

// Whether a payload is that of an approval.
fn lets_go(
    alloc: Global,
    payload: &[u8],
    name: &RefName,
    from: &ObjectId,
    tree: &ObjectId,
) -> Result<bool, Memory>
    ensures { IfOk result (λ is. is ≡ lets_go name.now from.now tree.now (json_of payload.now)) }
{
    match parse(alloc, payload) {
        Ok(value) => Ok(has_fields(&value, name, from, tree)),
        Err(ParseFault::NotJson) => Ok(false),
        Err(ParseFault::Memory) => Err(Memory),
    }
}

// Whether an envelope is of an approval's type.
fn has_type(envelope: &Envelope) -> bool
    ensures { result ≡ bytes_eq envelope.now.payload_type approval_type }
{
    envelope.payload_type.as_slice() == APPROVAL_TYPE
}

/// Whether an envelope is an approval that lets a reference go from a target to a tree: it has the type of an approval,
/// and its payload is JSON whose fields `type`, `targetRef`, `fromRevisionID` and `targetTreeID` say so, ids in
/// lower-case hexadecimal. Other fields are passed over.
/// It takes no memory for an envelope of another type.
pub fn is_approval(
    alloc: Global,
    envelope: &Envelope,
    name: &RefName,
    from: &ObjectId,
    tree: &ObjectId,
) -> Result<bool, Memory>
    ensures is { IfOk result (λ is. is ≡ is_approval name.now from.now tree.now envelope.now) }
    ensures typed { bytes_eq envelope.now.payload_type approval_type ≡ false → IsOk result }
{
    if !has_type(envelope) {
        return Ok(false);
    }
    lets_go(alloc, envelope.payload.as_slice(), name, from, tree)
}
