//! Copies of what texts are read as.

ghost use Rattle.std.specs.Prelude.{◌≡◌, ◌++◌, IfOk, OnOk};

use crate::same::Same;
use dsse_envelope::Envelope;
use octets::{Items, Memory, Octets};
use ref_patterns::Pattern;
use root_metadata::{Role, Root};
use rule_files::{Patterns, Rule, RuleFile, RuleList};
use std::alloc::Global;

/// An equal envelope.
pub fn copied_envelope(envelope: &Envelope) -> Result<Envelope, Memory>
    ensures { IfOk result (λ copy. copy ≡ envelope.now) }
{
    let payload_type = envelope.payload_type.copy()?;
    let payload = envelope.payload.copy()?;
    let signatures = envelope.signatures.copy()?;
    Ok(Envelope {
        payload_type,
        payload,
        signatures,
    })
}

fn copied_role(role: &Role) -> Result<Role, Memory>
    ensures { IfOk result (λ copy. copy ≡ role.now) }
{
    let persons = role.persons.copy()?;
    Ok(Role {
        persons,
        threshold: role.threshold,
    })
}

/// An equal root.
pub fn copied_root(root: &Root) -> Result<Root, Memory>
    ensures { IfOk result (λ copy. copy ≡ root.now) }
{
    let keys = root.keys.copy()?;
    let persons = root.persons.copy()?;
    let own = copied_role(&root.root)?;
    let targets = copied_role(&root.targets)?;
    Ok(Root {
        schema: root.schema,
        version: root.version,
        keys,
        persons,
        root: own,
        targets,
    })
}

// An equal pattern, read anew: its text is one, or there is no copy.
fn copied_pattern(alloc: Global, pattern: &Pattern) -> Result<Pattern, Memory>
    ensures { IfOk result (λ copy. copy ≡ pattern.now) }
{
    let mut text = Octets::from_slice(alloc, pattern.space().prefix())?;
    text.append(pattern.glob())?;
    match Pattern::read(alloc, text.as_slice()) {
        Ok(copy) => {
            if copy.is_same(pattern) {
                Ok(copy)
            } else {
                Err(Memory)
            }
        }
        Err(_) => Err(Memory),
    }
}

fn append_patterns(alloc: Global, list: &mut Patterns, patterns: &[Pattern]) -> Result<(), Memory>
    ensures { OnOk result (list.new ≡ list.old ++ patterns.now) }
{
    'patterns: for pattern in patterns {
        list.push(copied_pattern(alloc, pattern)?)?;
    }
    Ok(())
}

fn copied_rule(alloc: Global, rule: &Rule) -> Result<Rule, Memory>
    ensures { IfOk result (λ copy. copy ≡ rule.now) }
{
    let name = rule.name.copy()?;
    let mut patterns = Items::new(alloc);
    append_patterns(alloc, &mut patterns, rule.patterns.as_slice())?;
    let persons = rule.persons.copy()?;
    Ok(Rule {
        name,
        patterns,
        terminating: rule.terminating,
        persons,
        threshold: rule.threshold,
    })
}

fn append_rules(alloc: Global, list: &mut RuleList, rules: &[Rule]) -> Result<(), Memory>
    ensures { OnOk result (list.new ≡ list.old ++ rules.now) }
{
    'rules: for rule in rules {
        list.push(copied_rule(alloc, rule)?)?;
    }
    Ok(())
}

/// An equal rule file.
pub fn copied_file(alloc: Global, file: &RuleFile) -> Result<RuleFile, Memory>
    ensures { IfOk result (λ copy. copy ≡ file.now) }
{
    let name = file.name.copy()?;
    let keys = file.keys.copy()?;
    let persons = file.persons.copy()?;
    let mut rules = Items::new(alloc);
    append_rules(alloc, &mut rules, file.rules.as_slice())?;
    Ok(RuleFile {
        name,
        schema: file.schema,
        version: file.version,
        keys,
        persons,
        rules,
    })
}
