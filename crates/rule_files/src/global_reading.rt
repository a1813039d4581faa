//! Reading a file of global rules: as it is written, what is wrong first, and what is made of it.

ghost use Rattle.std.specs.Prelude.{◌≡◌, ◌⊎◌, ◌++◌, [], IfOk, IfErr, OnOk, Ok, Err, map};
ghost use Rattle.std.specs.List.{cons_option};
ghost use Rattle.serde_json.specs.View.{view};
ghost use Rattle.rule_files.specs.Files.{pattern_made, patterns_made};
ghost use Rattle.rule_files.specs.GlobalFiles.{file_made, from_json, from_shape, reading, rule_made};
ghost use Rattle.rule_files.specs.GlobalShapes.{rules_of};
ghost use Rattle.rule_files.specs.declared.global_faults.GlobalFault.TheVariants as fault;

use crate::global_judging::fault_of;
use crate::global_raw::RawGlobalRule;
use crate::global_shapes::rules_in;
use crate::{GlobalFault, GlobalFile, GlobalRule, GlobalRules, Patterns};
use json_fields::{ParseFault, ShapeFault, parse};
use octets::{Items, Memory, Octets};
use ref_patterns::{Pattern, PatternFault};
use serde_json::Value;
use std::alloc::Global;

// Adds the pattern of a text at the end, if it is one.
fn add_pattern(alloc: Global, patterns: &mut Patterns, text: &[u8]) -> Result<(), Memory>
    ensures { OnOk result (patterns.new ≡ patterns.old ++ cons_option (pattern_made text.now) []) }
{
    match Pattern::read(alloc, text) {
        Ok(pattern) => patterns.push(pattern),
        Err(PatternFault::Memory) => Err(Memory),
        Err(PatternFault::BadPattern { at: _ }) => Ok(()),
    }
}

// The patterns of texts.
fn make_patterns(alloc: Global, texts: &[Octets]) -> Result<Patterns, Memory>
    ensures { IfOk result (λ made. made ≡ patterns_made texts.now) }
{
    let mut made = Items::new(alloc);
    'texts: for text in texts {
        add_pattern(alloc, &mut made, text.as_slice())?;
    }
    Ok(made)
}

// The rule that is kept of what is written.
fn make_rule(alloc: Global, rule: &RawGlobalRule) -> Result<GlobalRule, Memory>
    ensures { IfOk result (λ made. made ≡ rule_made rule.now) }
{
    let name = rule.name.copy()?;
    let paths = make_patterns(alloc, rule.paths.as_slice())?;
    Ok(GlobalRule {
        name,
        paths,
        kind: rule.kind,
    })
}

// The rules that are kept.
fn make_rules(alloc: Global, rules: &[RawGlobalRule]) -> Result<GlobalRules, Memory>
    ensures { IfOk result (λ made. made ≡ map rule_made rules.now) }
{
    let mut made = Items::new(alloc);
    'rules: for rule in rules {
        let one = make_rule(alloc, rule)?;
        made.push(one)?;
    }
    Ok(made)
}

// The file that a value is.
fn read_value(alloc: Global, value: &Value) -> Result<GlobalFile, GlobalFault>
    ensures ok { IfOk result (λ file. from_shape (rules_of (view value.now)) ≡ Ok file) }
    ensures refused { IfErr result (λ e. (e ≡ fault.Memory) ⊎ (from_shape (rules_of (view value.now)) ≡ Err e)) }
{
    let raw = match rules_in(alloc, value) {
        Ok(raw) => raw,
        Err(ShapeFault::Missing) => return Err(GlobalFault::MissingField),
        Err(ShapeFault::Memory) => return Err(GlobalFault::Memory),
    };
    if let Some(fault) = fault_of(raw.as_slice()) {
        return Err(fault);
    }
    let rules = make_rules(alloc, raw.as_slice())?;
    Ok(GlobalFile { rules })
}

impl GlobalFile {
    /// The file of global rules that a payload is (`docs/FORMATS.md`, "Global rules"). Other fields are passed over.
    pub fn read(alloc: Global, payload: &[u8]) -> Result<GlobalFile, GlobalFault>
        ensures ok { IfOk result (λ file. reading payload.now ≡ Ok file) }
        ensures refused { IfErr result (λ e. (e ≡ fault.Memory) ⊎ (reading payload.now ≡ Err e)) }
    {
        let value = match parse(alloc, payload) {
            Ok(value) => value,
            Err(ParseFault::NotJson) => return Err(GlobalFault::NotJson),
            Err(ParseFault::Memory) => return Err(GlobalFault::Memory),
        };
        read_value(alloc, &value)
    }
}
