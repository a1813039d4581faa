//! The line that says whether an annotation would skip an entry.

ghost use Rattle.std.specs.Prelude.{◌≡◌, IfOk};
ghost use Rattle.std.specs.Option.{option_copied};
ghost use Rattle.serde_json.specs.View.{view};
ghost use Rattle.json_fields.specs.Values.{option_data, text_data};
ghost use Rattle.account_lines.specs.Lines.{skip_data, skip_line};

use git_object::{ObjectId, RefName};
use json_fields::{hex_json, line, option_json, text_json};
use octets::{Memory, Octets};
use serde_json::{Map, Value, put};
use std::alloc::Global;

// A name, or null.
fn name_json(alloc: Global, name: Option<&RefName>) -> Result<Value, Memory>
    ensures { IfOk result (λ value. view value ≡ option_data text_data (option_copied name.entry)) }
{
    match name {
        Some(name) => text_json(alloc, name.text()),
        None => Ok(Value::Null),
    }
}

fn skip_json(
    alloc: Global,
    id: &ObjectId,
    number: Option<u64>,
    name: Option<&RefName>,
    skips: bool,
) -> Result<Value, Memory>
    ensures { IfOk result (λ value. view value ≡ skip_data id.now number (option_copied name.entry) skips) }
{
    let id = hex_json(alloc, id.as_bytes())?;
    let number = option_json(alloc, number.as_ref())?;
    let name = name_json(alloc, name)?;
    let mut fields = Map::new(alloc);
    put(&mut fields, alloc, "id", id)?;
    put(&mut fields, alloc, "number", number)?;
    put(&mut fields, alloc, "reference", name)?;
    put(&mut fields, alloc, "skips", Value::from(skips))?;
    Ok(Value::Object(fields))
}

/// The line that says whether an annotation would skip the entry of an id, with its line feed; the number of the entry
/// and its reference, where there are any.
#[tactic(auto, unfolding(crate::specs::Lines::skip_line))]
pub fn skip_line(
    alloc: Global,
    id: &ObjectId,
    number: Option<u64>,
    name: Option<&RefName>,
    skips: bool,
) -> Result<Octets, Memory>
    ensures { IfOk result (λ text. text ≡ skip_line id.now number (option_copied name.entry) skips) }
{
    let value = skip_json(alloc, id, number, name, skips)?;
    line(alloc, &value)
}
