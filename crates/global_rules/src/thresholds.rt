//! Rules that ask for a least number of persons.

ghost use Rattle.std.specs.Prelude.{◌≡◌, ◌++◌, IfOk};
ghost use Rattle.std.specs.List.{list_any};
ghost use Rattle.ref_patterns.specs.Patterns.{prefix};
ghost use Rattle.rule_delegations.specs.Reached.{pattern_matches};
ghost use Rattle.entry_rules.specs.Meeting.{file_name, git_name};
ghost use Rattle.global_rules.specs.Thresholds.{first_short, short_at, threshold_why};

use crate::greatest::greatest;
use crate::{Change, GlobalWhy};
use octets::{Memory, Octets};
use ref_patterns::Space;
use root_metadata::KeyIds;
use rule_delegations::Rules;
use rule_files::{GlobalRule, Patterns};
use std::alloc::Global;

/// Whether one of the patterns speaks of a name.
pub(crate) fn speak_of(patterns: &Patterns, space: Space, text: &[u8]) -> bool
    ensures { result ≡ list_any (pattern_matches (record { space = space; text = text.now })) patterns.now }
{
    let patterns = patterns.as_slice();
    patterns.iter().any(|pattern| pattern.matches(space, text))
}

// The words of a name: the prefix of its space, and its text.
fn words_of(alloc: Global, space: Space, text: &[u8]) -> Result<Octets, Memory>
    ensures { IfOk result (λ words. words ≡ prefix space ++ text.now) }
{
    let mut words = Octets::from_slice(alloc, space.prefix())?;
    words.append(text)?;
    Ok(words)
}

// That too few signed for a reference of which the rule speaks.
fn ref_short(
    alloc: Global,
    rules: &Rules,
    rule: &GlobalRule,
    need: u32,
    change: &Change,
) -> Result<Option<GlobalWhy>, Memory>
    ensures { IfOk result (λ why. why ≡ short_at rules.now change.now.signers rule.now need (git_name change.now.name)) }
{
    let text = change.name.text();
    if !speak_of(&rule.paths, Space::Git, text) {
        return Ok(None);
    }
    let got = greatest(alloc, rules, Space::Git, text, &change.signers)?;
    if got >= need as usize {
        return Ok(None);
    }
    let name = words_of(alloc, Space::Git, text)?;
    let rule = rule.name.copy()?;
    Ok(Some(GlobalWhy::Threshold {
        rule,
        name,
        got,
        need,
    }))
}

// That too few signed for a path of which the rule speaks.
fn path_short(
    alloc: Global,
    rules: &Rules,
    rule: &GlobalRule,
    need: u32,
    signers: &KeyIds,
    path: &[u8],
) -> Result<Option<GlobalWhy>, Memory>
    ensures { IfOk result (λ why. why ≡ short_at rules.now signers.now rule.now need (file_name path.now)) }
{
    if !speak_of(&rule.paths, Space::File, path) {
        return Ok(None);
    }
    let got = greatest(alloc, rules, Space::File, path, signers)?;
    if got >= need as usize {
        return Ok(None);
    }
    let name = words_of(alloc, Space::File, path)?;
    let rule = rule.name.copy()?;
    Ok(Some(GlobalWhy::Threshold {
        rule,
        name,
        got,
        need,
    }))
}

// The first of the paths for which too few signed.
fn first_short(
    alloc: Global,
    rules: &Rules,
    rule: &GlobalRule,
    need: u32,
    signers: &KeyIds,
    paths: &[Octets],
) -> Result<Option<GlobalWhy>, Memory>
    ensures { IfOk result (λ why. why ≡ first_short rules.now signers.now rule.now need paths.now) }
{
    'paths: for path in paths {
        if let Some(why) = path_short(alloc, rules, rule, need, signers, path.as_slice())? {
            return Ok(Some(why));
        }
    }
    Ok(None)
}

/// That too few signed for the reference, or for the first of the paths for which they did.
pub(crate) fn threshold_why(
    alloc: Global,
    rules: &Rules,
    rule: &GlobalRule,
    need: u32,
    change: &Change,
    paths: &[Octets],
) -> Result<Option<GlobalWhy>, Memory>
    ensures { IfOk result (λ why. why ≡ threshold_why rules.now rule.now need change.now paths.now) }
{
    match ref_short(alloc, rules, rule, need, change)? {
        Some(why) => Ok(Some(why)),
        None => first_short(alloc, rules, rule, need, &change.signers, paths),
    }
}
