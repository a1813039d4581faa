//! Lists, and what may not be there, as values.

ghost use Rattle.std.specs.Prelude.{◌≡◌, ◌++◌, ◌∷◌, [], IfOk, OnOk};
ghost use Rattle.std.specs.Option.{option_copied};
ghost use Rattle.serde_json.specs.Data.{boolean};
ghost use Rattle.serde_json.specs.View.{view};
ghost use Rattle.serde_json.specs.Written.{comma_if, compact_text};
ghost use Rattle.json_fields.specs.Values.{hex_data, list_data, number_data, option_data, text_data};

use crate::line_writing::{write_bool, write_hex, write_null, write_number, write_text};
use crate::texts::{hex_json, number_json, text_json};
use git_object::{KeyId, ObjectId, RefName};
use octets::{Items, Memory, Octets};
use serde_json::Value;
use std::alloc::Global;

/// A type whose values are written as JSON.
pub trait ToJson: Sized {
    ghost use Rattle.serde_json.specs.Data.{Data};

    /// What is written for a value.
    ghost data_of: { Self → Data };

    /// What is written for a value.
    fn to_json(&self, alloc: Global) -> Result<Value, Memory>
        ensures { IfOk result (λ value. view value ≡ data_of self.now) };

    /// Writes that at the end of a text.
    fn write_json(&self, text: &mut Octets) -> Result<(), Memory>
        ensures { OnOk result (text.new ≡ text.old ++ compact_text (data_of self.now)) };
}

impl ToJson for ObjectId {
    ghost data_of = { hex_data };

    fn to_json(&self, alloc: Global) -> Result<Value, Memory> {
        hex_json(alloc, self.as_bytes())
    }

    fn write_json(&self, text: &mut Octets) -> Result<(), Memory> {
        write_hex(text, self.as_bytes())
    }
}

impl ToJson for KeyId {
    ghost data_of = { hex_data };

    fn to_json(&self, alloc: Global) -> Result<Value, Memory> {
        hex_json(alloc, self.as_bytes())
    }

    fn write_json(&self, text: &mut Octets) -> Result<(), Memory> {
        write_hex(text, self.as_bytes())
    }
}

impl ToJson for u64 {
    ghost data_of = { number_data };

    fn to_json(&self, _alloc: Global) -> Result<Value, Memory> {
        Ok(number_json(*self))
    }

    fn write_json(&self, text: &mut Octets) -> Result<(), Memory> {
        write_number(text, *self)
    }
}

impl ToJson for bool {
    ghost data_of = { boolean };

    fn to_json(&self, _alloc: Global) -> Result<Value, Memory> {
        Ok(Value::from(*self))
    }

    fn write_json(&self, text: &mut Octets) -> Result<(), Memory> {
        write_bool(text, *self)
    }
}

impl ToJson for Octets {
    ghost data_of = { text_data };

    fn to_json(&self, alloc: Global) -> Result<Value, Memory> {
        text_json(alloc, self.as_slice())
    }

    fn write_json(&self, text: &mut Octets) -> Result<(), Memory> {
        write_text(text, self.as_slice())
    }
}

impl ToJson for RefName {
    ghost data_of = { text_data };

    fn to_json(&self, alloc: Global) -> Result<Value, Memory> {
        text_json(alloc, self.text())
    }

    fn write_json(&self, text: &mut Octets) -> Result<(), Memory> {
        write_text(text, self.text())
    }
}

impl<T: ToJson> ToJson for Option<T> {
    ghost data_of = { option_data T.data_of };

    fn to_json(&self, alloc: Global) -> Result<Value, Memory> {
        option_json(alloc, self.as_ref())
    }

    fn write_json(&self, text: &mut Octets) -> Result<(), Memory> {
        match self {
            Some(item) => item.write_json(text),
            None => write_null(text),
        }
    }
}

impl<T: ToJson> ToJson for Items<T> {
    ghost data_of = { list_data T.data_of };

    fn to_json(&self, alloc: Global) -> Result<Value, Memory> {
        list_json(alloc, self.as_slice())
    }

    fn write_json(&self, text: &mut Octets) -> Result<(), Memory> {
        write_list(text, self.as_slice())
    }
}

// Adds a value at the end.
fn push(values: &mut Vec<Value>, value: Value) -> Result<(), Memory>
    ensures { OnOk result (values.new.items ≡ values.old.items ++ value ∷ []) }
{
    Ok(values.push(value)?)
}

/// A list, in its order.
pub fn list_json<T: ToJson>(alloc: Global, items: &[T]) -> Result<Value, Memory>
    ensures { IfOk result (λ value. view value ≡ list_data T.data_of items.now) }
{
    let mut values = Vec::new(alloc);
    'items: for item in items {
        let value = match item.to_json(alloc) {
            Ok(value) => value,
            Err(memory) => return Err(memory),
        };
        push(&mut values, value)?;
    }
    Ok(Value::from(values))
}

/// What may not be there: null where it is not.
pub fn option_json<T: ToJson>(alloc: Global, item: Option<&T>) -> Result<Value, Memory>
    ensures { IfOk result (λ value. view value ≡ option_data T.data_of (option_copied item.entry)) }
{
    match item {
        Some(item) => item.to_json(alloc),
        None => Ok(Value::Null),
    }
}

// Writes a comma where an item stands before.
fn write_comma(text: &mut Octets, later: bool) -> Result<(), Memory>
    ensures { OnOk result (text.new ≡ text.old ++ comma_if later) }
{
    if later { text.push(b',') } else { Ok(()) }
}

/// Writes a list, in its order.
pub fn write_list<T: ToJson>(text: &mut Octets, items: &[T]) -> Result<(), Memory>
    ensures { OnOk result (text.new ≡ text.old ++ compact_text (list_data T.data_of items.now)) }
{
    text.push(b'[')?;
    let mut later = false;
    'items: for item in items {
        write_comma(text, later)?;
        item.write_json(text)?;
        later = true;
    }
    text.push(b']')
}
