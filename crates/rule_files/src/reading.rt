//! Reading a rule file: as it is written, what is wrong first, and what is made of it.

ghost use Rattle.std.specs.Prelude.{◌≡◌, ◌⊎◌, ◌++◌, [], IfOk, IfErr, OnOk, Ok, Err, map};
ghost use Rattle.std.specs.List.{cons_option};
ghost use Rattle.serde_json.specs.View.{view};
ghost use Rattle.rule_files.specs.Files.{file_made, from_json, from_shape, pattern_made, patterns_made, reading};
ghost use Rattle.rule_files.specs.Files.{rule_made};
ghost use Rattle.rule_files.specs.Shapes.{file_of};
ghost use Rattle.rule_files.specs.declared.faults.RuleFault.TheVariants as fault;

use crate::judging::fault_of;
use crate::raw::{RawRule, RawRuleFile};
use crate::shapes::raw_file_in;
use crate::{Patterns, Rule, RuleFault, RuleFile, RuleList};
use json_fields::{ParseFault, ShapeFault, parse};
use octets::{Items, Memory, Octets};
use ref_patterns::{Pattern, PatternFault};
use root_metadata::{Known, Roster, make_keys, make_persons, make_role};
use serde_json::Value;
use std::alloc::Global;

// Adds the pattern of a text at the end, if it is one.
fn add_pattern(alloc: Global, patterns: &mut Patterns, text: &[u8]) -> Result<(), Memory>
    ensures { OnOk result (patterns.new ≡ patterns.old ++ cons_option (pattern_made text.now) []) }
{
    match Pattern::read(alloc, text) {
        Ok(pattern) => patterns.push(pattern),
        Err(PatternFault::Memory) => Err(Memory),
        Err(PatternFault::BadPattern { at: _ }) => Ok(()),
    }
}

// The patterns of texts.
fn make_patterns(alloc: Global, texts: &[Octets]) -> Result<Patterns, Memory>
    ensures { IfOk result (λ made. made ≡ patterns_made texts.now) }
{
    let mut made = Items::new(alloc);
    'texts: for text in texts {
        add_pattern(alloc, &mut made, text.as_slice())?;
    }
    Ok(made)
}

// The rule that is kept of what is written.
fn make_rule(alloc: Global, roster: &Roster, rule: &RawRule) -> Result<Rule, Memory>
    ensures { IfOk result (λ made. made ≡ rule_made roster.now rule.now) }
{
    let name = rule.name.copy()?;
    let patterns = make_patterns(alloc, rule.paths.as_slice())?;
    let role = make_role(alloc, roster, &rule.role)?;
    Ok(Rule {
        name,
        patterns,
        terminating: rule.terminating,
        persons: role.persons,
        threshold: role.threshold,
    })
}

// The rules that are kept.
fn make_rules(alloc: Global, roster: &Roster, rules: &[RawRule]) -> Result<RuleList, Memory>
    ensures { IfOk result (λ made. made ≡ map (rule_made roster.now) rules.now) }
{
    let mut made = Items::new(alloc);
    'rules: for rule in rules {
        let one = make_rule(alloc, roster, rule)?;
        made.push(one)?;
    }
    Ok(made)
}

// The file that is kept.
fn make_file(alloc: Global, file: &RawRuleFile) -> Result<RuleFile, Memory>
    ensures { IfOk result (λ made. made ≡ file_made file.now) }
{
    let name = file.name.copy()?;
    let keys = make_keys(alloc, file.roster.keys.as_slice())?;
    let persons = make_persons(alloc, &file.roster)?;
    let rules = make_rules(alloc, &file.roster, file.rules.as_slice())?;
    Ok(RuleFile {
        name,
        schema: file.roster.schema,
        version: file.roster.version,
        keys,
        persons,
        rules,
    })
}

// The rule file that a value is.
fn read_value(alloc: Global, value: &Value) -> Result<RuleFile, RuleFault>
    ensures ok { IfOk result (λ file. from_shape (file_of (view value.now)) ≡ Ok file) }
    ensures refused { IfErr result (λ e. (e ≡ fault.Memory) ⊎ (from_shape (file_of (view value.now)) ≡ Err e)) }
{
    let raw = match raw_file_in(alloc, value) {
        Ok(raw) => raw,
        Err(ShapeFault::Missing) => return Err(RuleFault::MissingField),
        Err(ShapeFault::Memory) => return Err(RuleFault::Memory),
    };
    let known = Known::of(alloc, &raw.roster)?;
    if let Some(fault) = fault_of(&raw, &known) {
        return Err(fault);
    }
    Ok(make_file(alloc, &raw)?)
}

impl RuleFile {
    /// The rule file that a text is (`docs/FORMATS.md`, "Rule files"). Persons and listed ids of keys are kept as sets;
    /// in schema 1 each listed id is a person, named by it in hexadecimal, and in schema 2 listed names that no person
    /// of the file has are dropped. Other fields are passed over.
    pub fn read(alloc: Global, text: &[u8]) -> Result<RuleFile, RuleFault>
        ensures ok { IfOk result (λ file. reading text.now ≡ Ok file) }
        ensures refused { IfErr result (λ e. (e ≡ fault.Memory) ⊎ (reading text.now ≡ Err e)) }
    {
        let value = match parse(alloc, text) {
            Ok(value) => value,
            Err(ParseFault::NotJson) => return Err(RuleFault::NotJson),
            Err(ParseFault::Memory) => return Err(RuleFault::Memory),
        };
        read_value(alloc, &value)
    }
}
