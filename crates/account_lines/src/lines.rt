//! The line of the greatest leaf of a key.

ghost use Rattle.std.specs.Prelude.{◌≡◌, IfOk};
ghost use Rattle.serde_json.specs.View.{view};
ghost use Rattle.account_lines.specs.Used.{used_data, used_line};

use git_object::KeyId;
use json_fields::{hex_json, line, option_json};
use octets::{Memory, Octets};
use serde_json::{Map, Value, put};
use std::alloc::Global;

fn used_json(alloc: Global, id: &KeyId, leaf: Option<u64>) -> Result<Value, Memory>
    ensures { IfOk result (λ value. view value ≡ used_data id.now leaf) }
{
    let key = hex_json(alloc, id.as_bytes())?;
    let leaf = option_json(alloc, leaf.as_ref())?;
    let mut fields = Map::new(alloc);
    put(&mut fields, alloc, "key", key)?;
    put(&mut fields, alloc, "leaf", leaf)?;
    Ok(Value::Object(fields))
}

// The line of JSON that tells a key and a leaf, with its line feed.
pub(crate) fn used_line(alloc: Global, id: &KeyId, leaf: Option<u64>) -> Result<Octets, Memory>
    ensures { IfOk result (λ text. text ≡ used_line id.now leaf) }
{
    let value = used_json(alloc, id, leaf)?;
    line(alloc, &value)
}
