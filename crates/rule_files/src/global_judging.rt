//! What is wrong with global rules as they are written, number by number and without memory of its own.

ghost use Rattle.std.specs.Prelude.{◌≡◌, [], not, length};
ghost use Rattle.std.specs.List.{find, list_any, position};
ghost use Rattle.std.specs.Option.{option_copied};
ghost use Rattle.std.specs.Str.{bytes_eq};
ghost use Rattle.rule_files.specs.Files.{is_rule_name};
ghost use Rattle.rule_files.specs.GlobalFiles.{are_few, bad_name_from, count_fault, fault_of, has_few_patterns};
ghost use Rattle.rule_files.specs.GlobalFiles.{is_bad_name, is_zero, may_stand, name_fault, pattern_fault};
ghost use Rattle.rule_files.specs.GlobalFiles.{patterns_count};
ghost use Rattle.rule_files.specs.GlobalFiles.{threshold_fault, wrong_count};

use crate::global_raw::RawGlobalRule;
use crate::{GlobalFault, GlobalKind};
use octets::Octets;
use root_metadata::is_name;

/// The most rules of a file, and the most patterns of a rule.
const MOST: usize = 64;

// Whether there are 1 to 64 of something.
fn are_few(count: usize) -> bool
    ensures { result ≡ are_few count }
{
    1 <= count && count <= MOST
}

// A count that is not 1 to 64.
fn wrong_count(count: usize) -> Option<usize>
    ensures { result ≡ wrong_count count }
{
    if are_few(count) {
        return None;
    }
    Some(count)
}

// Whether a rule has 1 to 64 patterns.
fn has_few_patterns(rule: &RawGlobalRule) -> bool
    ensures { result ≡ has_few_patterns rule.now }
{
    are_few(rule.paths.len())
}

// The first rule that has not 1 to 64 patterns.
fn first_wrong_count(rules: &[RawGlobalRule]) -> Option<&RawGlobalRule>
    ensures { option_copied result ≡ find (λ rule. not (has_few_patterns rule)) rules.now }
{
    rules.iter().find(|rule| !has_few_patterns(rule))
}

// The count of the patterns of the first rule that has not 1 to 64.
fn patterns_count(rules: &[RawGlobalRule]) -> Option<usize>
    ensures { result ≡ patterns_count rules.now }
{
    match first_wrong_count(rules) {
        Some(rule) => Some(rule.paths.len()),
        None => None,
    }
}

fn count_fault(rules: &[RawGlobalRule]) -> Option<GlobalFault>
    ensures { result ≡ count_fault rules.now }
{
    if let Some(count) = wrong_count(rules.len()) {
        return Some(GlobalFault::BadCount { count });
    }
    match patterns_count(rules) {
        Some(count) => Some(GlobalFault::BadCount { count }),
        None => None,
    }
}

// Whether a text may stand among the patterns of a rule of this kind.
fn may_stand(kind: GlobalKind, text: &[u8]) -> bool
    ensures { result ≡ may_stand kind text.now }
{
    match kind {
        GlobalKind::Threshold { threshold: _ } => ref_patterns::is_pattern(text),
        GlobalKind::NoRewind => ref_patterns::is_pattern(text) && !text.starts_with(b"file:"),
    }
}

// The place of the first text that may not stand there.
fn bad_pattern(kind: GlobalKind, paths: &[Octets]) -> Option<usize>
    ensures { result ≡ position (λ text. not (may_stand kind text)) paths.now }
{
    paths
        .iter()
        .position(|text| !may_stand(kind, text.as_slice()))
}

fn pattern_fault(rules: &[RawGlobalRule]) -> Option<GlobalFault>
    ensures { result ≡ pattern_fault rules.now }
{
    let mut at = 0;
    'rules: for rule in rules {
        if let Some(pattern) = bad_pattern(rule.kind, rule.paths.as_slice()) {
            return Some(GlobalFault::BadPattern { rule: at, pattern });
        }
        at += 1;
    }
    None
}

// Whether a rule may have the name.
fn is_rule_name(text: &[u8]) -> bool
    ensures { result ≡ is_rule_name text.now }
{
    if !is_name(text) {
        return false;
    }
    if text[0] == b'.' {
        return false;
    }
    text != b"root".as_slice() && text != b"targets".as_slice()
}

// Whether a rule has the name.
fn has_name(rules: &[RawGlobalRule], name: &[u8]) -> bool
    ensures { result ≡ list_any (λ other. bytes_eq other.name name.now) rules.now }
{
    rules.iter().any(|other| other.name.as_slice() == name)
}

// Whether the name of a rule is bad beside the earlier ones.
fn is_bad_name(earlier: &[RawGlobalRule], rule: &RawGlobalRule) -> bool
    ensures { result ≡ is_bad_name earlier.now rule.now }
{
    if !is_rule_name(rule.name.as_slice()) {
        return true;
    }
    has_name(earlier, rule.name.as_slice())
}

// The place of the first rule whose name is bad.
fn bad_name(rules: &[RawGlobalRule]) -> Option<usize>
    ensures { result ≡ bad_name_from [] rules.now }
{
    let mut at = 0;
    'rules: for rule in rules {
        let (earlier, _) = rules.split_at(at);
        if is_bad_name(earlier, rule) {
            return Some(at);
        }
        at += 1;
    }
    None
}

fn name_fault(rules: &[RawGlobalRule]) -> Option<GlobalFault>
    ensures { result ≡ name_fault rules.now }
{
    match bad_name(rules) {
        Some(rule) => Some(GlobalFault::BadName { rule }),
        None => None,
    }
}

// Whether a threshold is 0.
fn is_zero(kind: GlobalKind) -> bool
    ensures { result ≡ is_zero kind }
{
    match kind {
        GlobalKind::Threshold { threshold } => threshold == 0,
        GlobalKind::NoRewind => false,
    }
}

// The place of the first rule whose threshold is 0.
fn bad_threshold(rules: &[RawGlobalRule]) -> Option<usize>
    ensures { result ≡ position (λ rule. is_zero rule.kind) rules.now }
{
    rules.iter().position(|rule| is_zero(rule.kind))
}

fn threshold_fault(rules: &[RawGlobalRule]) -> Option<GlobalFault>
    ensures { result ≡ threshold_fault rules.now }
{
    match bad_threshold(rules) {
        Some(rule) => Some(GlobalFault::BadThreshold { rule }),
        None => None,
    }
}

/// The first that is wrong.
pub(crate) fn fault_of(rules: &[RawGlobalRule]) -> Option<GlobalFault>
    ensures { result ≡ fault_of rules.now }
{
    if let Some(fault) = count_fault(rules) {
        return Some(fault);
    }
    if let Some(fault) = pattern_fault(rules) {
        return Some(fault);
    }
    if let Some(fault) = name_fault(rules) {
        return Some(fault);
    }
    threshold_fault(rules)
}
