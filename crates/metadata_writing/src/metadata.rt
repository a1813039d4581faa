//! Roles, roots and rule files as JSON values.

ghost use Rattle.std.specs.Prelude.{◌≡◌, IfOk, IsErrOf, codes};
ghost use Rattle.serde_json.specs.Data.{member, no_members, object, string};
ghost use Rattle.serde_json.specs.View.{view};
ghost use Rattle.metadata_writing.specs.Texts.{AreNamed, HasFileTexts, HasRootTexts};
ghost use Rattle.metadata_writing.specs.Written.{file_data, file_first, file_second, role_first, role_second};
ghost use Rattle.metadata_writing.specs.Written.{root_data, root_first, root_second};

use crate::WriteFault;
use crate::texts::text_json;
use crate::values::{First, Named, Second, ToJson, Whole, list_json};
use root_metadata::{Key, Person, Role, Root};
use rule_files::{Rule, RuleFile};
use serde_json::{Map, Value, put};
use std::alloc::Global;

impl ToJson<First> for Role {
    ghost written = { role_first };

    ghost texts = { AreNamed };

    fn to_json(&self, alloc: Global) -> Result<Value, WriteFault> {
        let persons = match list_json::<Named, Person>(alloc, self.persons.as_slice()) {
            Ok(persons) => persons,
            Err(fault) => return Err(fault),
        };
        let mut fields = Map::new(alloc);
        put(&mut fields, alloc, "keyids", persons)?;
        put(&mut fields, alloc, "threshold", Value::from(self.threshold))?;
        Ok(Value::Object(fields))
    }
}

impl ToJson<Second> for Role {
    ghost written = { role_second };

    ghost texts = { AreNamed };

    fn to_json(&self, alloc: Global) -> Result<Value, WriteFault> {
        let persons = match list_json::<Named, Person>(alloc, self.persons.as_slice()) {
            Ok(persons) => persons,
            Err(fault) => return Err(fault),
        };
        let mut fields = Map::new(alloc);
        put(&mut fields, alloc, "persons", persons)?;
        put(&mut fields, alloc, "threshold", Value::from(self.threshold))?;
        Ok(Value::Object(fields))
    }
}

// The two roles of a root.
fn roles_json<Form, T: ToJson<Form>>(
    alloc: Global,
    root: &T,
    targets: &T,
) -> Result<Value, WriteFault>
    ensures written { IfOk result (λ value. view value
        ≡ object (member (codes "root") (T.written root.now)
        (member (codes "targets") (T.written targets.now) no_members))) }
    ensures unwritable { IsErrOf result WriteFault.Unwritable → T.texts root.now → T.texts targets.now → ⊥ }
{
    let first = match root.to_json(alloc) {
        Ok(first) => first,
        Err(fault) => return Err(fault),
    };
    let second = match targets.to_json(alloc) {
        Ok(second) => second,
        Err(fault) => return Err(fault),
    };
    let mut fields = Map::new(alloc);
    put(&mut fields, alloc, "root", first)?;
    put(&mut fields, alloc, "targets", second)?;
    Ok(Value::Object(fields))
}

// The name of a type.
fn kind_json(alloc: Global, kind: &str) -> Result<Value, WriteFault>
    ensures written { IfOk result (λ value. view value ≡ string kind.now) }
    ensures writable { IsErrOf result WriteFault.Unwritable → ⊥ }
{
    match String::from_str(alloc, kind) {
        Ok(text) => Ok(Value::from(text)),
        Err(_) => Err(WriteFault::Memory),
    }
}

impl ToJson<First> for Root {
    ghost written = { root_first };

    ghost texts = { HasRootTexts };

    fn to_json(&self, alloc: Global) -> Result<Value, WriteFault> {
        let roles = match roles_json::<First, Role>(alloc, &self.root, &self.targets) {
            Ok(roles) => roles,
            Err(fault) => return Err(fault),
        };
        let keys = match list_json::<Whole, Key>(alloc, self.keys.as_slice()) {
            Ok(keys) => keys,
            Err(fault) => return Err(fault),
        };
        let kind = match kind_json(alloc, "root") {
            Ok(kind) => kind,
            Err(fault) => return Err(fault),
        };
        let mut fields = Map::new(alloc);
        put(&mut fields, alloc, "keys", keys)?;
        put(&mut fields, alloc, "roles", roles)?;
        put(&mut fields, alloc, "type", kind)?;
        put(&mut fields, alloc, "version", Value::from(self.version))?;
        Ok(Value::Object(fields))
    }
}

impl ToJson<Second> for Root {
    ghost written = { root_second };

    ghost texts = { HasRootTexts };

    fn to_json(&self, alloc: Global) -> Result<Value, WriteFault> {
        let roles = match roles_json::<Second, Role>(alloc, &self.root, &self.targets) {
            Ok(roles) => roles,
            Err(fault) => return Err(fault),
        };
        let persons = match list_json::<Whole, Person>(alloc, self.persons.as_slice()) {
            Ok(persons) => persons,
            Err(fault) => return Err(fault),
        };
        let keys = match list_json::<Whole, Key>(alloc, self.keys.as_slice()) {
            Ok(keys) => keys,
            Err(fault) => return Err(fault),
        };
        let kind = match kind_json(alloc, "root") {
            Ok(kind) => kind,
            Err(fault) => return Err(fault),
        };
        let mut fields = Map::new(alloc);
        put(&mut fields, alloc, "keys", keys)?;
        put(&mut fields, alloc, "persons", persons)?;
        put(&mut fields, alloc, "roles", roles)?;
        put(&mut fields, alloc, "schema", Value::from(self.schema))?;
        put(&mut fields, alloc, "type", kind)?;
        put(&mut fields, alloc, "version", Value::from(self.version))?;
        Ok(Value::Object(fields))
    }
}

impl ToJson<First> for RuleFile {
    ghost written = { file_first };

    ghost texts = { HasFileTexts };

    fn to_json(&self, alloc: Global) -> Result<Value, WriteFault> {
        let name = match text_json(alloc, self.name.as_slice()) {
            Ok(name) => name,
            Err(fault) => return Err(fault),
        };
        let rules = match list_json::<First, Rule>(alloc, self.rules.as_slice()) {
            Ok(rules) => rules,
            Err(fault) => return Err(fault),
        };
        let keys = match list_json::<Whole, Key>(alloc, self.keys.as_slice()) {
            Ok(keys) => keys,
            Err(fault) => return Err(fault),
        };
        let kind = match kind_json(alloc, "rules") {
            Ok(kind) => kind,
            Err(fault) => return Err(fault),
        };
        let mut fields = Map::new(alloc);
        put(&mut fields, alloc, "keys", keys)?;
        put(&mut fields, alloc, "name", name)?;
        put(&mut fields, alloc, "rules", rules)?;
        put(&mut fields, alloc, "type", kind)?;
        put(&mut fields, alloc, "version", Value::from(self.version))?;
        Ok(Value::Object(fields))
    }
}

impl ToJson<Second> for RuleFile {
    ghost written = { file_second };

    ghost texts = { HasFileTexts };

    fn to_json(&self, alloc: Global) -> Result<Value, WriteFault> {
        let name = match text_json(alloc, self.name.as_slice()) {
            Ok(name) => name,
            Err(fault) => return Err(fault),
        };
        let rules = match list_json::<Second, Rule>(alloc, self.rules.as_slice()) {
            Ok(rules) => rules,
            Err(fault) => return Err(fault),
        };
        let persons = match list_json::<Whole, Person>(alloc, self.persons.as_slice()) {
            Ok(persons) => persons,
            Err(fault) => return Err(fault),
        };
        let keys = match list_json::<Whole, Key>(alloc, self.keys.as_slice()) {
            Ok(keys) => keys,
            Err(fault) => return Err(fault),
        };
        let kind = match kind_json(alloc, "rules") {
            Ok(kind) => kind,
            Err(fault) => return Err(fault),
        };
        let mut fields = Map::new(alloc);
        put(&mut fields, alloc, "keys", keys)?;
        put(&mut fields, alloc, "name", name)?;
        put(&mut fields, alloc, "persons", persons)?;
        put(&mut fields, alloc, "rules", rules)?;
        put(&mut fields, alloc, "schema", Value::from(self.schema))?;
        put(&mut fields, alloc, "type", kind)?;
        put(&mut fields, alloc, "version", Value::from(self.version))?;
        Ok(Value::Object(fields))
    }
}

/// A root.
pub fn root_json(alloc: Global, root: &Root) -> Result<Value, WriteFault>
    ensures written { IfOk result (λ value. view value ≡ root_data root.now) }
    ensures unwritable { IsErrOf result WriteFault.Unwritable → HasRootTexts root.now → ⊥ }
{
    if root.schema == 1 {
        return <Root as ToJson<First>>::to_json(root, alloc);
    }
    <Root as ToJson<Second>>::to_json(root, alloc)
}

/// A rule file.
pub fn file_json(alloc: Global, file: &RuleFile) -> Result<Value, WriteFault>
    ensures written { IfOk result (λ value. view value ≡ file_data file.now) }
    ensures unwritable { IsErrOf result WriteFault.Unwritable → HasFileTexts file.now → ⊥ }
{
    if file.schema == 1 {
        return <RuleFile as ToJson<First>>::to_json(file, alloc);
    }
    <RuleFile as ToJson<Second>>::to_json(file, alloc)
}
