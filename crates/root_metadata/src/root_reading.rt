//! Reading a root: as it is written, what is wrong first, and what is made of it.

ghost use Rattle.std.specs.Prelude.{◌≡◌, ◌⊎◌, IfOk, IfErr, IsErrOf, None, Ok, Err, Some};
ghost use Rattle.serde_json.specs.View.{view};
ghost use Rattle.root_metadata.specs.Lookups.{IsIndex};
ghost use Rattle.root_metadata.specs.Roots.{count_fault, fault_of, from_json, from_shape, id_fault, key_fault};
ghost use Rattle.root_metadata.specs.Roots.{person_fault, reading, role_at, root_made, root_of, shared_fault};
ghost use Rattle.root_metadata.specs.Roots.{threshold_fault};
ghost use Rattle.root_metadata.specs.declared.roots.MetaFault.TheVariants as fault;

use crate::judging::{bad_key, bad_person, has_bad_threshold, other_id, shared_key, too_many};
use crate::making::{make_keys, make_persons, make_role};
use crate::reading::{role_in, roster_in};
use crate::{Known, MetaFault, RawRole, RawRoot, Root};
use json_fields::{ParseFault, ShapeFault, parse, value_in};
use octets::Memory;
use serde_json::Value;
use std::alloc::Global;

// The role of a name.
fn role_under(alloc: Global, schema: u32, name: &str, value: &Value) -> Result<RawRole, ShapeFault>
    ensures ok { IfOk result (λ role. role_at schema name.now (view value.now) ≡ Some role) }
    ensures missing { IsErrOf result ShapeFault.Missing → role_at schema name.now (view value.now) ≡ None }
{
    let Some(roles) = value_in(value, "roles") else {
        return Err(ShapeFault::Missing);
    };
    match value_in(roles, name) {
        Some(role) => role_in(alloc, schema, role),
        None => Err(ShapeFault::Missing),
    }
}

// The root that a value is, as it is written.
fn raw_root_in(alloc: Global, value: &Value) -> Result<RawRoot, ShapeFault>
    ensures ok { IfOk result (λ root. root_of (view value.now) ≡ Some root) }
    ensures missing { IsErrOf result ShapeFault.Missing → root_of (view value.now) ≡ None }
{
    let roster = roster_in(alloc, "root", value)?;
    let root = role_under(alloc, roster.schema, "root", value)?;
    let targets = role_under(alloc, roster.schema, "targets", value)?;
    Ok(RawRoot {
        roster,
        root,
        targets,
    })
}

fn count_fault(root: &RawRoot) -> Option<MetaFault>
    ensures { result ≡ count_fault root.now }
{
    if let Some(count) = too_many(root.roster.keys.len()) {
        return Some(MetaFault::BadCount { count });
    }
    match too_many(root.roster.persons.len()) {
        Some(count) => Some(MetaFault::BadCount { count }),
        None => None,
    }
}

fn key_fault(root: &RawRoot) -> Option<MetaFault>
    ensures { result ≡ key_fault root.now }
{
    match bad_key(root.roster.keys.as_slice()) {
        Some(at) => Some(MetaFault::BadKey { at }),
        None => None,
    }
}

fn id_fault(root: &RawRoot) -> Option<MetaFault>
    ensures { result ≡ id_fault root.now }
{
    match other_id(root.roster.keys.as_slice()) {
        Some(at) => Some(MetaFault::KeyIdDiffers { at }),
        None => None,
    }
}

fn threshold_fault(root: &RawRoot, known: &Known) -> Option<MetaFault>
    requires { IsIndex root.now.roster known.now }
    ensures { result ≡ threshold_fault root.now }
{
    if has_bad_threshold(&root.roster, known, &root.root) {
        return Some(MetaFault::BadThreshold { at: 0 });
    }
    if has_bad_threshold(&root.roster, known, &root.targets) {
        return Some(MetaFault::BadThreshold { at: 1 });
    }
    None
}

fn person_fault(root: &RawRoot, known: &Known) -> Option<MetaFault>
    requires { IsIndex root.now.roster known.now }
    ensures { result ≡ person_fault root.now }
{
    match bad_person(&root.roster, known) {
        Some(at) => Some(MetaFault::BadPerson { at }),
        None => None,
    }
}

fn shared_fault(root: &RawRoot) -> Option<MetaFault>
    ensures { result ≡ shared_fault root.now }
{
    match shared_key(&root.roster) {
        Some(at) => Some(MetaFault::SharedKey { at }),
        None => None,
    }
}

// The first that is wrong.
fn fault_of(root: &RawRoot, known: &Known) -> Option<MetaFault>
    requires { IsIndex root.now.roster known.now }
    ensures { result ≡ fault_of root.now }
{
    if let Some(fault) = count_fault(root) {
        return Some(fault);
    }
    if let Some(fault) = key_fault(root) {
        return Some(fault);
    }
    if let Some(fault) = id_fault(root) {
        return Some(fault);
    }
    if let Some(fault) = threshold_fault(root, known) {
        return Some(fault);
    }
    if let Some(fault) = person_fault(root, known) {
        return Some(fault);
    }
    shared_fault(root)
}

// The root that is kept of it.
fn make_root(alloc: Global, root: &RawRoot) -> Result<Root, Memory>
    ensures { IfOk result (λ made. made ≡ root_made root.now) }
{
    let keys = make_keys(alloc, root.roster.keys.as_slice())?;
    let persons = make_persons(alloc, &root.roster)?;
    let targets = make_role(alloc, &root.roster, &root.targets)?;
    let first = make_role(alloc, &root.roster, &root.root)?;
    Ok(Root {
        schema: root.roster.schema,
        version: root.roster.version,
        keys,
        persons,
        root: first,
        targets,
    })
}

// The root that a value is.
fn read_value(alloc: Global, value: &Value) -> Result<Root, MetaFault>
    ensures ok { IfOk result (λ root. from_shape (root_of (view value.now)) ≡ Ok root) }
    ensures refused { IfErr result (λ e. (e ≡ fault.Memory) ⊎ (from_shape (root_of (view value.now)) ≡ Err e)) }
{
    let raw = match raw_root_in(alloc, value) {
        Ok(raw) => raw,
        Err(ShapeFault::Missing) => return Err(MetaFault::MissingField),
        Err(ShapeFault::Memory) => return Err(MetaFault::Memory),
    };
    let known = Known::of(alloc, &raw.roster)?;
    if let Some(fault) = fault_of(&raw, &known) {
        return Err(fault);
    }
    Ok(make_root(alloc, &raw)?)
}

impl Root {
    /// The root that a text is (`docs/FORMATS.md`, "Roots"). Persons and listed ids of keys are kept as sets; in schema
    /// 1 each listed id is a person, named by it in hexadecimal, and in schema 2 listed names that no person of the
    /// file has are dropped. Other fields are passed over.
    pub fn read(alloc: Global, text: &[u8]) -> Result<Root, MetaFault>
        ensures ok { IfOk result (λ root. reading text.now ≡ Ok root) }
        ensures refused { IfErr result (λ e. (e ≡ fault.Memory) ⊎ (reading text.now ≡ Err e)) }
    {
        let value = match parse(alloc, text) {
            Ok(value) => value,
            Err(ParseFault::NotJson) => return Err(MetaFault::NotJson),
            Err(ParseFault::Memory) => return Err(MetaFault::Memory),
        };
        read_value(alloc, &value)
    }
}
