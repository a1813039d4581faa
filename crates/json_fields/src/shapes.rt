//! What a value is read as, and lists of what is read.

ghost use Rattle.std.specs.Prelude.{◌≡◌, IfOk, IsErrOf, None, Some};
ghost use Rattle.serde_json.specs.Find.{as_str};
ghost use Rattle.serde_json.specs.View.{items_view, view};
ghost use Rattle.json_fields.specs.Hexadecimal.{hex_bytes, key_id_of};
ghost use Rattle.json_fields.specs.Json.{each, each_at};
ghost use Rattle.json_fields.specs.declared.shapes.ShapeFault.TheVariants as fault;

use crate::list_in;
use git_object::KeyId;
use hex::FromHex;
use octets::{Items, Memory, Octets};
use serde_json::Value;
use std::alloc::Global;
use text_reader::is_lower_hexadecimal;

/// Why a value was not read.
#[derive(Clone, Copy, Debug, PartialEq, Eq, Drop)]
pub enum ShapeFault {
    /// It is of another kind, or a field of it is missing or of another kind.
    Missing,
    Memory,
}

impl From<Memory> for ShapeFault {
    ghost from_gives = { λ _ e. e ≡ fault.Memory };

    fn from(_error: Memory) -> ShapeFault {
        ShapeFault::Memory
    }
}

/// A type that values are read as.
pub trait FromJson: Drop + Sized {
    ghost use Rattle.std.specs.Prelude.{Option};
    ghost use Rattle.serde_json.specs.Data.{Data};

    /// What a value is read as, or None where it is of another kind, or a field of it is missing or of another kind.
    ghost reads: { Data → Option Self };

    /// What the value is read as. `Missing` comes exactly where it is nothing of the kind.
    fn from_json(alloc: Global, value: &Value) -> Result<Self, ShapeFault>
        ensures ok { IfOk result (λ it. reads (view value.now) ≡ Some it) }
        ensures missing { IsErrOf result ShapeFault.Missing → reads (view value.now) ≡ None };
}

impl FromJson for Octets {
    ghost reads = { as_str };

    fn from_json(alloc: Global, value: &Value) -> Result<Octets, ShapeFault> {
        match value.as_str() {
            Some(text) => Ok(Octets::from_slice(alloc, text.as_bytes())?),
            None => Err(ShapeFault::Missing),
        }
    }
}

/// The `N` bytes that exactly twice as many lower-case hexadecimal digits write; None for any other text.
pub fn read_hex<const N: usize>(text: &[u8]) -> Option<[u8; N]>
    ensures { result ≡ hex_bytes N text.now }
{
    if !is_lower_hexadecimal(text) {
        return None;
    }
    match <[u8; N] as FromHex>::from_hex(text) {
        Ok(bytes) => Some(bytes),
        Err(_) => None,
    }
}

/// The id of a key that a value is, if it is one: a text of 64 lower-case hexadecimal digits. It takes no memory.
pub fn key_id_in(value: &Value) -> Option<KeyId>
    ensures { result ≡ key_id_of (view value.now) }
{
    let Some(text) = value.as_str() else {
        return None;
    };
    match read_hex::<32>(text.as_bytes()) {
        Some(bytes) => Some(KeyId(bytes)),
        None => None,
    }
}

impl FromJson for KeyId {
    ghost reads = { key_id_of };

    fn from_json(_alloc: Global, value: &Value) -> Result<KeyId, ShapeFault> {
        match key_id_in(value) {
            Some(id) => Ok(id),
            None => Err(ShapeFault::Missing),
        }
    }
}

// Each of the values, where each is read.
fn each<T: FromJson>(alloc: Global, values: &[Value]) -> Result<Items<T>, ShapeFault>
    ensures ok { IfOk result (λ list. each T.reads (items_view values.now) ≡ Some list) }
    ensures missing { IsErrOf result ShapeFault.Missing → each T.reads (items_view values.now) ≡ None }
{
    let mut list = Items::new(alloc);
    for value in values {
        let it = T::from_json(alloc, value)?;
        list.push(it)?;
    }
    Ok(list)
}

/// The list under a key. `Missing` comes exactly where there is none, or an item of it is not read.
pub fn each_in<T: FromJson>(alloc: Global, value: &Value, key: &str) -> Result<Items<T>, ShapeFault>
    ensures ok { IfOk result (λ list. each_at T.reads key.now (view value.now) ≡ Some list) }
    ensures missing { IsErrOf result ShapeFault.Missing → each_at T.reads key.now (view value.now) ≡ None }
{
    match list_in(value, key) {
        Some(values) => each(alloc, values),
        None => Err(ShapeFault::Missing),
    }
}
