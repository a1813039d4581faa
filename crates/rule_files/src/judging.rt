//! What is wrong with a rule file as it is written, number by number and without memory of its own.

ghost use Rattle.std.specs.Prelude.{◌≡◌, length, not};
ghost use Rattle.std.specs.List.{find, position};
ghost use Rattle.std.specs.Option.{option_copied};
ghost use Rattle.root_metadata.specs.Judged.{has_bad_threshold, or_next, too_many};
ghost use Rattle.root_metadata.specs.Lookups.{IsIndex};
ghost use Rattle.rule_files.specs.Files.{count_fault, early_fault, fault_of, has_few_patterns, id_fault, is_pattern};
ghost use Rattle.rule_files.specs.Files.{is_rule_name, key_fault, late_fault, name_fault, pattern_fault};
ghost use Rattle.rule_files.specs.Files.{pattern_fault_from, patterns_count, person_fault, shared_fault};
ghost use Rattle.rule_files.specs.Files.{threshold_fault};

use crate::RuleFault;
use crate::raw::{RawRule, RawRuleFile};
use octets::Octets;
use root_metadata::{
    Known, Roster, bad_key, bad_person, has_bad_threshold, is_name, other_id, shared_key, too_many,
};

/// The most patterns of a rule.
const MOST_PATTERNS: usize = 64;

// Whether a rule has 1 to 64 patterns.
fn has_few_patterns(rule: &RawRule) -> bool
    ensures { result ≡ has_few_patterns rule.now }
{
    !rule.paths.is_empty() && rule.paths.len() <= MOST_PATTERNS
}

// The first rule that has not 1 to 64 patterns.
fn first_wrong_count(rules: &[RawRule]) -> Option<&RawRule>
    ensures { option_copied result ≡ find (λ rule. not (has_few_patterns rule)) rules.now }
{
    rules.iter().find(|rule| !has_few_patterns(rule))
}

// The count of the patterns of the first rule that has not 1 to 64.
fn patterns_count(rules: &[RawRule]) -> Option<usize>
    ensures { result ≡ patterns_count rules.now }
{
    match first_wrong_count(rules) {
        Some(rule) => Some(rule.paths.len()),
        None => None,
    }
}

// A count that breaks its bound, of keys or rules.
fn list_count(file: &RawRuleFile) -> Option<usize>
    ensures { result ≡ or_next (too_many (length file.now.roster.keys)) (too_many (length file.now.rules)) }
{
    match too_many(file.roster.keys.len()) {
        Some(count) => Some(count),
        None => too_many(file.rules.len()),
    }
}

fn count_fault(file: &RawRuleFile) -> Option<RuleFault>
    ensures { result ≡ count_fault file.now }
{
    if let Some(count) = list_count(file) {
        return Some(RuleFault::BadCount { count });
    }
    if let Some(count) = patterns_count(file.rules.as_slice()) {
        return Some(RuleFault::BadCount { count });
    }
    match too_many(file.roster.persons.len()) {
        Some(count) => Some(RuleFault::BadCount { count }),
        None => None,
    }
}

fn key_fault(file: &RawRuleFile) -> Option<RuleFault>
    ensures { result ≡ key_fault file.now }
{
    match bad_key(file.roster.keys.as_slice()) {
        Some(at) => Some(RuleFault::BadKey { at }),
        None => None,
    }
}

fn id_fault(file: &RawRuleFile) -> Option<RuleFault>
    ensures { result ≡ id_fault file.now }
{
    match other_id(file.roster.keys.as_slice()) {
        Some(at) => Some(RuleFault::KeyIdDiffers { at }),
        None => None,
    }
}

// The place of the first rule whose threshold is wrong.
fn bad_threshold(roster: &Roster, known: &Known, rules: &[RawRule]) -> Option<usize>
    requires { IsIndex roster.now known.now }
    ensures { result ≡ position (λ rule. has_bad_threshold roster.now rule.role) rules.now }
{
    rules
        .iter()
        .position(|rule| has_bad_threshold(roster, known, &rule.role))
}

fn threshold_fault(file: &RawRuleFile, known: &Known) -> Option<RuleFault>
    requires { IsIndex file.now.roster known.now }
    ensures { result ≡ threshold_fault file.now }
{
    match bad_threshold(&file.roster, known, file.rules.as_slice()) {
        Some(at) => Some(RuleFault::BadThreshold { at }),
        None => None,
    }
}

// The place of the first text that is no pattern.
fn bad_pattern(paths: &[Octets]) -> Option<usize>
    ensures { result ≡ position (λ text. not (is_pattern text)) paths.now }
{
    paths
        .iter()
        .position(|text| !ref_patterns::is_pattern(text.as_slice()))
}

fn pattern_fault(file: &RawRuleFile) -> Option<RuleFault>
    ensures { result ≡ pattern_fault file.now }
{
    let mut at = 0;
    'rules: for rule in file.rules.as_slice() {
        if let Some(pattern) = bad_pattern(rule.paths.as_slice()) {
            return Some(RuleFault::BadPattern { rule: at, pattern });
        }
        at += 1;
    }
    None
}

// Whether a rule may have the name.
fn is_rule_name(text: &[u8]) -> bool
    ensures { result ≡ is_rule_name text.now }
{
    if !is_name(text) {
        return false;
    }
    if text[0] == b'.' {
        return false;
    }
    text != b"root".as_slice() && text != b"targets".as_slice()
}

// The place of the first rule whose name is none.
fn bad_name(rules: &[RawRule]) -> Option<usize>
    ensures { result ≡ position (λ rule. not (is_rule_name rule.name)) rules.now }
{
    rules
        .iter()
        .position(|rule| !is_rule_name(rule.name.as_slice()))
}

fn name_fault(file: &RawRuleFile) -> Option<RuleFault>
    ensures { result ≡ name_fault file.now }
{
    match bad_name(file.rules.as_slice()) {
        Some(rule) => Some(RuleFault::BadName { rule }),
        None => None,
    }
}

fn person_fault(file: &RawRuleFile, known: &Known) -> Option<RuleFault>
    requires { IsIndex file.now.roster known.now }
    ensures { result ≡ person_fault file.now }
{
    match bad_person(&file.roster, known) {
        Some(at) => Some(RuleFault::BadPerson { at }),
        None => None,
    }
}

fn shared_fault(file: &RawRuleFile) -> Option<RuleFault>
    ensures { result ≡ shared_fault file.now }
{
    match shared_key(&file.roster) {
        Some(at) => Some(RuleFault::SharedKey { at }),
        None => None,
    }
}

// The first that is wrong among counts, keys and thresholds.
fn early_fault(file: &RawRuleFile, known: &Known) -> Option<RuleFault>
    requires { IsIndex file.now.roster known.now }
    ensures { result ≡ early_fault file.now }
{
    if let Some(fault) = count_fault(file) {
        return Some(fault);
    }
    if let Some(fault) = key_fault(file) {
        return Some(fault);
    }
    if let Some(fault) = id_fault(file) {
        return Some(fault);
    }
    threshold_fault(file, known)
}

// The first that is wrong among patterns, names and persons.
fn late_fault(file: &RawRuleFile, known: &Known) -> Option<RuleFault>
    requires { IsIndex file.now.roster known.now }
    ensures { result ≡ late_fault file.now }
{
    if let Some(fault) = pattern_fault(file) {
        return Some(fault);
    }
    if let Some(fault) = name_fault(file) {
        return Some(fault);
    }
    if let Some(fault) = person_fault(file, known) {
        return Some(fault);
    }
    shared_fault(file)
}

/// The first that is wrong.
pub(crate) fn fault_of(file: &RawRuleFile, known: &Known) -> Option<RuleFault>
    requires { IsIndex file.now.roster known.now }
    ensures { result ≡ fault_of file.now }
{
    if let Some(fault) = early_fault(file, known) {
        return Some(fault);
    }
    late_fault(file, known)
}
