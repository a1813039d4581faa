//! What is read of a root's and of a rule file's text, as texts.

use crate::lines::append_number;
use octets::{Memory, Octets};
use root_metadata::{Keys, MetaFault, Persons, Role, Root};
use rule_files::{Rule, RuleFault, RuleFile};
use std::alloc::Global;

// A word and a number behind it.
fn append_count(text: &mut Octets, word: &[u8], number: u64) -> Result<(), Memory> {
    text.append(word)?;
    append_number(text, number)
}

// How many keys there are, and of each its id and the length of its public bytes.
fn append_keys(text: &mut Octets, keys: &Keys) -> Result<(), Memory> {
    append_count(text, b" keys ", keys.len() as u64)?;
    for key in keys.as_slice() {
        text.push(b' ')?;
        text.append(&key.id.to_hex())?;
        append_count(text, b":", key.public.len() as u64)?;
    }
    Ok(())
}

// How many persons there are, and of each the name and how many keys it has.
fn append_persons(text: &mut Octets, persons: &Persons) -> Result<(), Memory> {
    append_count(text, b" persons ", persons.len() as u64)?;
    for person in persons.as_slice() {
        text.push(b' ')?;
        text.append(person.name.as_slice())?;
        append_count(text, b":", person.keyids.len() as u64)?;
    }
    Ok(())
}

fn append_role(text: &mut Octets, word: &[u8], role: &Role) -> Result<(), Memory> {
    append_count(text, word, role.threshold as u64)?;
    append_persons(text, &role.persons)
}

fn append_root(text: &mut Octets, root: &Root) -> Result<(), Memory> {
    append_count(text, b"schema ", root.schema as u64)?;
    append_count(text, b" version ", root.version)?;
    append_keys(text, &root.keys)?;
    append_persons(text, &root.persons)?;
    append_role(text, b" root ", &root.root)?;
    append_role(text, b" targets ", &root.targets)
}

fn append_rule(text: &mut Octets, rule: &Rule) -> Result<(), Memory> {
    text.append(b" rule ")?;
    text.append(rule.name.as_slice())?;
    append_count(text, b" patterns ", rule.patterns.len() as u64)?;
    let word = if rule.terminating {
        b" terminating ".as_slice()
    } else {
        b" open ".as_slice()
    };
    append_count(text, word, rule.threshold as u64)?;
    append_persons(text, &rule.persons)
}

fn append_rules(text: &mut Octets, file: &RuleFile) -> Result<(), Memory> {
    text.append(file.name.as_slice())?;
    append_count(text, b" schema ", file.schema as u64)?;
    append_count(text, b" version ", file.version)?;
    append_keys(text, &file.keys)?;
    append_persons(text, &file.persons)?;
    for rule in file.rules.as_slice() {
        append_rule(text, rule)?;
    }
    Ok(())
}

fn append_meta_fault(text: &mut Octets, fault: MetaFault) -> Result<(), Memory> {
    match fault {
        MetaFault::NotJson => text.append(b"not-json"),
        MetaFault::MissingField => text.append(b"missing-field"),
        MetaFault::BadCount { count } => append_count(text, b"bad-count ", count as u64),
        MetaFault::BadKey { at } => append_count(text, b"bad-key ", at as u64),
        MetaFault::KeyIdDiffers { at } => append_count(text, b"key-id-differs ", at as u64),
        MetaFault::BadThreshold { at } => append_count(text, b"bad-threshold ", at as u64),
        MetaFault::BadPerson { at } => append_count(text, b"bad-person ", at as u64),
        MetaFault::SharedKey { at } => append_count(text, b"shared-key ", at as u64),
        MetaFault::Memory => Err(Memory),
    }
}

fn append_rule_fault(text: &mut Octets, fault: RuleFault) -> Result<(), Memory> {
    match fault {
        RuleFault::NotJson => text.append(b"not-json"),
        RuleFault::MissingField => text.append(b"missing-field"),
        RuleFault::BadCount { count } => append_count(text, b"bad-count ", count as u64),
        RuleFault::BadKey { at } => append_count(text, b"bad-key ", at as u64),
        RuleFault::KeyIdDiffers { at } => append_count(text, b"key-id-differs ", at as u64),
        RuleFault::BadThreshold { at } => append_count(text, b"bad-threshold ", at as u64),
        RuleFault::BadPattern { rule, pattern } => {
            append_count(text, b"bad-pattern ", rule as u64)?;
            append_count(text, b" ", pattern as u64)
        }
        RuleFault::BadName { rule } => append_count(text, b"bad-name ", rule as u64),
        RuleFault::BadPerson { at } => append_count(text, b"bad-person ", at as u64),
        RuleFault::SharedKey { at } => append_count(text, b"shared-key ", at as u64),
        RuleFault::Memory => Err(Memory),
    }
}

/// The root of a text, or its fault.
pub fn root_text(alloc: Global, bytes: &[u8]) -> Result<Octets, Memory> {
    let mut text = Octets::new(alloc);
    match Root::read(alloc, bytes) {
        Ok(root) => append_root(&mut text, &root)?,
        Err(fault) => append_meta_fault(&mut text, fault)?,
    }
    Ok(text)
}

/// The rule file of a text, or its fault.
pub fn rules_text(alloc: Global, bytes: &[u8]) -> Result<Octets, Memory> {
    let mut text = Octets::new(alloc);
    match RuleFile::read(alloc, bytes) {
        Ok(file) => append_rules(&mut text, &file)?,
        Err(fault) => append_rule_fault(&mut text, fault)?,
    }
    Ok(text)
}
