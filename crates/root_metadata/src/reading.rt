//! From a JSON value to metadata as it is written.

ghost use Rattle.std.specs.Prelude.{◌≡◌, IfOk, IsErrOf, None, Some};
ghost use Rattle.std.specs.List.{list_all};
ghost use Rattle.serde_json.specs.View.{view};
ghost use Rattle.root_metadata.specs.Shapes.{is_id_text, is_kind, key_id_at, key_of, listed_of, person_of, persons_of};
ghost use Rattle.root_metadata.specs.Shapes.{role_of, roster_of, schema_of, threshold_of, version_of};

use crate::sets::{id_set, name_set};
use crate::{KeyId, Names, Person, RawKey, RawRole, Roster};
use json_fields::{
    FromJson, ShapeFault, each_in, key_id_in, number_in, read_hex, text_in, value_in,
};
use octets::{Items, Octets};
use serde_json::Value;
use std::alloc::Global;

// The id of a key under a key.
fn key_id_under(value: &Value, key: &str) -> Option<KeyId>
    ensures { result ≡ key_id_at key.now (view value.now) }
{
    match value_in(value, key) {
        Some(found) => key_id_in(found),
        None => None,
    }
}

impl FromJson for RawKey {
    ghost reads = { key_of };

    fn from_json(alloc: Global, value: &Value) -> Result<RawKey, ShapeFault> {
        let Some(id) = key_id_under(value, "keyid") else {
            return Err(ShapeFault::Missing);
        };
        let Some(keytype) = text_in(value, "keytype") else {
            return Err(ShapeFault::Missing);
        };
        let Some(public) = text_in(value, "public") else {
            return Err(ShapeFault::Missing);
        };
        let keytype = Octets::from_slice(alloc, keytype.as_bytes())?;
        let public = Octets::from_slice(alloc, public.as_bytes())?;
        Ok(RawKey {
            id,
            keytype,
            public,
        })
    }
}

impl FromJson for Person {
    ghost reads = { person_of };

    fn from_json(alloc: Global, value: &Value) -> Result<Person, ShapeFault> {
        let Some(name) = text_in(value, "name") else {
            return Err(ShapeFault::Missing);
        };
        let ids: Items<KeyId> = each_in(alloc, value, "keyids")?;
        let keyids = id_set(alloc, ids.as_slice())?;
        let name = Octets::from_slice(alloc, name.as_bytes())?;
        Ok(Person { name, keyids })
    }
}

// Whether the value says that it is of this type.
fn is_kind(value: &Value, kind: &str) -> bool
    ensures { result ≡ is_kind kind.now (view value.now) }
{
    match text_in(value, "type") {
        Some(found) => found.as_bytes() == kind.as_bytes(),
        None => false,
    }
}

// The schema: 1 where none is said.
fn schema_in(value: &Value) -> Option<u32>
    ensures { result ≡ schema_of (view value.now) }
{
    let Some(found) = value_in(value, "schema") else {
        return Some(1);
    };
    let Some(schema) = found.as_u64() else {
        return None;
    };
    if schema == 1 {
        return Some(1);
    }
    if schema == 2 {
        return Some(2);
    }
    None
}

// The version, from 1 on.
fn version_in(value: &Value) -> Option<u64>
    ensures { result ≡ version_of (view value.now) }
{
    let Some(version) = number_in(value, "version") else {
        return None;
    };
    if version >= 1 {
        return Some(version);
    }
    None
}

// The threshold, of 32 bits.
fn threshold_in(value: &Value) -> Option<u32>
    ensures { result ≡ threshold_of (view value.now) }
{
    let Some(threshold) = number_in(value, "threshold") else {
        return None;
    };
    if threshold < 4294967296 {
        return Some(threshold as u32);
    }
    None
}

// Whether each text is the id of a key.
fn are_ids(texts: &[Octets]) -> bool
    ensures { result ≡ list_all is_id_text texts.now }
{
    texts
        .iter()
        .all(|text| read_hex::<32>(text.as_slice()).is_some())
}

// Who is listed.
fn listed_in(alloc: Global, schema: u32, value: &Value) -> Result<Names, ShapeFault>
    ensures ok { IfOk result (λ listed. listed_of schema (view value.now) ≡ Some listed) }
    ensures missing { IsErrOf result ShapeFault.Missing → listed_of schema (view value.now) ≡ None }
{
    if schema != 1 {
        let names: Items<Octets> = each_in(alloc, value, "persons")?;
        return Ok(name_set(alloc, names.as_slice())?);
    }
    let texts: Items<Octets> = each_in(alloc, value, "keyids")?;
    if !are_ids(texts.as_slice()) {
        return Err(ShapeFault::Missing);
    }
    Ok(name_set(alloc, texts.as_slice())?)
}

/// The role that a value is in metadata of this schema.
pub fn role_in(alloc: Global, schema: u32, value: &Value) -> Result<RawRole, ShapeFault>
    ensures ok { IfOk result (λ role. role_of schema (view value.now) ≡ Some role) }
    ensures missing { IsErrOf result ShapeFault.Missing → role_of schema (view value.now) ≡ None }
{
    let Some(threshold) = threshold_in(value) else {
        return Err(ShapeFault::Missing);
    };
    let listed = listed_in(alloc, schema, value)?;
    Ok(RawRole { listed, threshold })
}

// The persons that metadata of this schema lists.
fn persons_in(alloc: Global, schema: u32, value: &Value) -> Result<Items<Person>, ShapeFault>
    ensures ok { IfOk result (λ persons. persons_of schema (view value.now) ≡ Some persons) }
    ensures missing { IsErrOf result ShapeFault.Missing → persons_of schema (view value.now) ≡ None }
{
    if schema == 1 {
        return Ok(Items::new(alloc));
    }
    each_in(alloc, value, "persons")
}

/// What all metadata of a type has.
pub fn roster_in(alloc: Global, kind: &str, value: &Value) -> Result<Roster, ShapeFault>
    ensures ok { IfOk result (λ roster. roster_of kind.now (view value.now) ≡ Some roster) }
    ensures missing { IsErrOf result ShapeFault.Missing → roster_of kind.now (view value.now) ≡ None }
{
    if !is_kind(value, kind) {
        return Err(ShapeFault::Missing);
    }
    let Some(schema) = schema_in(value) else {
        return Err(ShapeFault::Missing);
    };
    let Some(version) = version_in(value) else {
        return Err(ShapeFault::Missing);
    };
    let keys = each_in(alloc, value, "keys")?;
    let persons = persons_in(alloc, schema, value)?;
    Ok(Roster {
        schema,
        version,
        keys,
        persons,
    })
}
