//! Keys, persons, patterns and rules as JSON values, and lists of them.

ghost use Rattle.std.specs.Prelude.{◌≡◌, ◌++◌, ◌∷◌, [], All, IfOk, IsErrOf, OnOk};
ghost use Rattle.serde_json.specs.Data.{string};
ghost use Rattle.serde_json.specs.View.{view};
ghost use Rattle.metadata_writing.specs.Texts.{HasRuleTexts, HasText, IsNamed};
ghost use Rattle.metadata_writing.specs.Written.{hex_data, key_data, list_data, name_data, pattern_data, person_data};
ghost use Rattle.metadata_writing.specs.Written.{rule_first, rule_second};

use crate::WriteFault;
use crate::texts::{hex_json, key_kind, pattern_json, text_json};
use octets::Memory;
use ref_patterns::Pattern;
use root_metadata::{Key, KeyId, Person};
use rule_files::Rule;
use serde_json::{Map, Value, put};
use std::alloc::Global;

/// The one form of a key, of an id, of a person among a file's own, and of a pattern.
pub struct Whole;

/// A person as roles and rules list one.
pub struct Named;

/// The form in schema 1.
pub struct First;

/// The form in schema 2.
pub struct Second;

/// A type of which values are written in this form.
pub trait ToJson<Form>: Sized {
    ghost use Rattle.serde_json.specs.Data.{Data};

    /// What is written for a value.
    ghost written: { Self → Data };

    /// Each field that is written as a text is one.
    ghost texts: { Self → Type 0 };

    /// What is written for a value. `Unwritable` comes only where a field that is written as a text is none.
    fn to_json(&self, alloc: Global) -> Result<Value, WriteFault>
        ensures written { IfOk result (λ value. view value ≡ written self.now) }
        ensures unwritable { IsErrOf result WriteFault.Unwritable → texts self.now → ⊥ };
}

// Adds a value at the end.
fn push(values: &mut Vec<Value>, value: Value) -> Result<(), Memory>
    ensures { OnOk result (values.new.items ≡ values.old.items ++ value ∷ []) }
{
    Ok(values.push(value)?)
}

/// A list of values.
pub fn list_json<Form, T: ToJson<Form>>(alloc: Global, items: &[T]) -> Result<Value, WriteFault>
    ensures written { IfOk result (λ value. view value ≡ list_data T.written items.now) }
    ensures unwritable { IsErrOf result WriteFault.Unwritable → All T.texts items.now → ⊥ }
{
    let mut values = Vec::new(alloc);
    'items: for item in items {
        let value = match item.to_json(alloc) {
            Ok(value) => value,
            Err(fault) => return Err(fault),
        };
        push(&mut values, value)?;
    }
    Ok(Value::from(values))
}

impl ToJson<Whole> for KeyId {
    ghost written = { hex_data };

    ghost texts = { λ _. Unit {0} };

    fn to_json(&self, alloc: Global) -> Result<Value, WriteFault> {
        Ok(hex_json(alloc, self.as_bytes())?)
    }
}

impl ToJson<Whole> for Pattern {
    ghost written = { pattern_data };

    ghost texts = { HasText };

    fn to_json(&self, alloc: Global) -> Result<Value, WriteFault> {
        pattern_json(alloc, self)
    }
}

impl ToJson<Named> for Person {
    ghost written = { name_data };

    ghost texts = { IsNamed };

    fn to_json(&self, alloc: Global) -> Result<Value, WriteFault> {
        text_json(alloc, self.name.as_slice())
    }
}

impl ToJson<Whole> for Key {
    ghost written = { key_data };

    ghost texts = { λ _. Unit {0} };

    fn to_json(&self, alloc: Global) -> Result<Value, WriteFault> {
        let id = hex_json(alloc, self.id.as_bytes())?;
        let kind = String::from_str(alloc, key_kind(self.public.as_slice()))?;
        let public = hex_json(alloc, self.public.as_slice())?;
        let mut fields = Map::new(alloc);
        put(&mut fields, alloc, "keyid", id)?;
        put(&mut fields, alloc, "keytype", Value::from(kind))?;
        put(&mut fields, alloc, "public", public)?;
        Ok(Value::Object(fields))
    }
}

impl ToJson<Whole> for Person {
    ghost written = { person_data };

    ghost texts = { IsNamed };

    fn to_json(&self, alloc: Global) -> Result<Value, WriteFault> {
        let name = match text_json(alloc, self.name.as_slice()) {
            Ok(name) => name,
            Err(fault) => return Err(fault),
        };
        let ids = match list_json::<Whole, KeyId>(alloc, self.keyids.as_slice()) {
            Ok(ids) => ids,
            Err(fault) => return Err(fault),
        };
        let mut fields = Map::new(alloc);
        put(&mut fields, alloc, "keyids", ids)?;
        put(&mut fields, alloc, "name", name)?;
        Ok(Value::Object(fields))
    }
}

impl ToJson<First> for Rule {
    ghost written = { rule_first };

    ghost texts = { HasRuleTexts };

    fn to_json(&self, alloc: Global) -> Result<Value, WriteFault> {
        let (persons, name, paths) = match rule_parts(alloc, self) {
            Ok(parts) => parts,
            Err(fault) => return Err(fault),
        };
        let mut fields = Map::new(alloc);
        put(&mut fields, alloc, "keyids", persons)?;
        put(&mut fields, alloc, "name", name)?;
        put(&mut fields, alloc, "paths", paths)?;
        put(
            &mut fields,
            alloc,
            "terminating",
            Value::from(self.terminating),
        )?;
        put(&mut fields, alloc, "threshold", Value::from(self.threshold))?;
        Ok(Value::Object(fields))
    }
}

impl ToJson<Second> for Rule {
    ghost written = { rule_second };

    ghost texts = { HasRuleTexts };

    fn to_json(&self, alloc: Global) -> Result<Value, WriteFault> {
        let (persons, name, paths) = match rule_parts(alloc, self) {
            Ok(parts) => parts,
            Err(fault) => return Err(fault),
        };
        let mut fields = Map::new(alloc);
        put(&mut fields, alloc, "name", name)?;
        put(&mut fields, alloc, "paths", paths)?;
        put(&mut fields, alloc, "persons", persons)?;
        put(
            &mut fields,
            alloc,
            "terminating",
            Value::from(self.terminating),
        )?;
        put(&mut fields, alloc, "threshold", Value::from(self.threshold))?;
        Ok(Value::Object(fields))
    }
}

// The persons, the name and the patterns of a rule.
fn rule_parts(alloc: Global, rule: &Rule) -> Result<(Value, Value, Value), WriteFault>
    ensures persons { IfOk result (λ parts. view parts.0 ≡ list_data name_data rule.now.persons) }
    ensures name { IfOk result (λ parts. view parts.1 ≡ string rule.now.name) }
    ensures paths { IfOk result (λ parts. view parts.2 ≡ list_data pattern_data rule.now.patterns) }
    ensures unwritable { IsErrOf result WriteFault.Unwritable → HasRuleTexts rule.now → ⊥ }
{
    let persons = match list_json::<Named, Person>(alloc, rule.persons.as_slice()) {
        Ok(persons) => persons,
        Err(fault) => return Err(fault),
    };
    let name = match text_json(alloc, rule.name.as_slice()) {
        Ok(name) => name,
        Err(fault) => return Err(fault),
    };
    let paths = match list_json::<Whole, Pattern>(alloc, rule.patterns.as_slice()) {
        Ok(paths) => paths,
        Err(fault) => return Err(fault),
    };
    Ok((persons, name, paths))
}
