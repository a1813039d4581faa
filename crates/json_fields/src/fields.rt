//! Fields of a value.

ghost use Rattle.std.specs.Prelude.{◌≡◌};
ghost use Rattle.std.specs.Option.{option_map};
ghost use Rattle.serde_json.specs.Find.{get};
ghost use Rattle.serde_json.specs.View.{items_view, view};
ghost use Rattle.json_fields.specs.Json.{bool_at, list_at, number_at, text_at, text_at_or_empty};

use serde_json::Value;

/// The text under a key, or None where there is none or it is of another kind.
pub fn text_in<'v>(value: &'v Value, key: &str) -> Option<&'v str>
    ensures { option_map (λ text. text.now) result ≡ text_at key.now (view value.now) }
{
    value.get(key).and_then(Value::as_str)
}

/// The text under a key, the empty one where there is none, or None where it is of another kind.
pub fn text_in_or_empty<'v>(value: &'v Value, key: &str) -> Option<&'v str>
    ensures { option_map (λ text. text.now) result ≡ text_at_or_empty key.now (view value.now) }
{
    match value.get(key) {
        Some(found) => found.as_str(),
        None => Some(""),
    }
}

/// The whole number under a key, or None where there is none or it is of another kind.
pub fn number_in(value: &Value, key: &str) -> Option<u64>
    ensures { result ≡ number_at key.now (view value.now) }
{
    value.get(key).and_then(Value::as_u64)
}

/// The list under a key, or None where there is none or it is of another kind.
pub fn list_in<'v>(value: &'v Value, key: &str) -> Option<&'v [Value]>
    ensures { option_map (λ list. items_view list.now) result ≡ list_at key.now (view value.now) }
{
    match value.get(key).and_then(Value::as_array) {
        Some(list) => Some(list.as_slice()),
        None => None,
    }
}

/// What is under a key, or None where there is nothing.
pub fn value_in<'v>(value: &'v Value, key: &str) -> Option<&'v Value>
    ensures { option_map (λ found. view found.now) result ≡ get key.now (view value.now) }
{
    value.get(key)
}

/// Whether it is true or false that is under a key, or None where there is nothing or it is of another kind.
pub fn bool_in(value: &Value, key: &str) -> Option<bool>
    ensures { result ≡ bool_at key.now (view value.now) }
{
    value.get(key).and_then(Value::as_bool)
}
