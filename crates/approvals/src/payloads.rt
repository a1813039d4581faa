//! What an approval says.

ghost use Rattle.std.specs.Prelude.{◌≡◌, IfOk, Some};
ghost use Rattle.hex.specs.Hex.{encode_lower};
ghost use Rattle.json_fields.specs.Json.{json_of};
ghost use Rattle.serde_json.specs.Data.{string};
ghost use Rattle.serde_json.specs.View.{view};
ghost use Rattle.approvals.specs.Payloads.{payload_data, payload_text};

use git_object::{ObjectId, RefName};
use hex::encode;
use json_fields::{text_value, write};
use octets::{Memory, Octets};
use serde_json::{Map, Value, put};
use std::alloc::Global;

// The digits of an id as a value.
fn id_value(alloc: Global, id: &ObjectId) -> Result<Value, Memory>
    ensures { IfOk result (λ value. view value ≡ string (encode_lower id.now)) }
{
    let text = encode(alloc, id.as_bytes().as_slice())?;
    Ok(Value::from(text))
}

fn payload_value(
    alloc: Global,
    name: &RefName,
    from: &ObjectId,
    tree: &ObjectId,
) -> Result<Value, Memory>
    ensures { IfOk result (λ value. view value ≡ payload_data name.now from.now tree.now) }
{
    let from = id_value(alloc, from)?;
    let target = text_value(alloc, name.text())?;
    let tree = id_value(alloc, tree)?;
    let kind = text_value(alloc, b"approval")?;
    let mut fields = Map::new(alloc);
    put(&mut fields, alloc, "fromRevisionID", from)?;
    put(&mut fields, alloc, "targetRef", target)?;
    put(&mut fields, alloc, "targetTreeID", tree)?;
    put(&mut fields, alloc, "type", kind)?;
    Ok(Value::Object(fields))
}

/// The payload of an approval that lets a reference go from a target to a tree: compact JSON with the fields
/// `fromRevisionID`, `targetRef`, `targetTreeID` and `type`, which is `approval`. Zeros stand for what is not there.
pub fn payload_of(
    alloc: Global,
    name: &RefName,
    from: &ObjectId,
    tree: &ObjectId,
) -> Result<Octets, Memory>
    ensures exact { IfOk result (λ text. text ≡ payload_text name.now from.now tree.now) }
    ensures reads_back { IfOk result (λ text. json_of text ≡ Some (payload_data name.now from.now tree.now)) }
{
    let value = payload_value(alloc, name, from, tree)?;
    write(alloc, &value)
}
