//! The search of reached rules.

ghost use Rattle.std.specs.Prelude.{◌≡◌, ◌<◌, ℕ, false, List, Some, All, IfOk, IsOk};
ghost use Rattle.rule_delegations.specs.Chains.{rule_at};
ghost use Rattle.rule_delegations.specs.Forests.{rules_of};
ghost use Rattle.rule_delegations.specs.Reached.{rule_matches};
ghost use Rattle.rule_delegations.specs.Walks.{Adds, found_at, walk};

use crate::RuleRef;
use crate::forest::Forest;
use crate::matching::rule_matches;
use octets::Memory;
use ref_patterns::Space;
use rule_files::Rule;

/// Adds the places that are reached by a rule and below it, through so many files; whether a terminating rule ended the
/// search. It takes no memory for a rule that does not match.
#[cycle(searching)]
fn search_rule(
    forest: &Forest,
    place: RuleRef,
    rule: &Rule,
    left: u32,
    space: Space,
    text: &[u8],
    found: &mut Vec<RuleRef>,
) -> Result<bool, Memory>
    requires { rule_at forest.now place ≡ Some rule.now }
    ensures added { IfOk result (λ stopped. Adds found.old.items found.new.items stopped
        (found_at forest.now (record { space = space; text = text.now }) left place rule.now)) }
    ensures free { rule_matches (record { space = space; text = text.now }) rule.now ≡ false → IsOk result }
{
    if !rule_matches(rule, space, text) {
        return Ok(false);
    }
    found.push(place)?;
    let Some(file) = forest.below(place) else {
        return Ok(rule.terminating);
    };
    if search_file(forest, file, left, space, text, found)? {
        return Ok(true);
    }
    Ok(rule.terminating)
}

/// Adds the places that are reached from a file on, through so many files; whether a terminating rule ended the search.
/// It takes no memory for a rule that does not match.
#[cycle(searching)]
pub(crate) fn search_file(
    forest: &Forest,
    file: u32,
    left: u32,
    space: Space,
    text: &[u8],
    found: &mut Vec<RuleRef>,
) -> Result<bool, Memory>
    ensures added { IfOk result (λ stopped. Adds found.old.items found.new.items stopped
        (walk forest.now (record { space = space; text = text.now }) left file)) }
    ensures free { All (λ rule. rule_matches (record { space = space; text = text.now }) rule ≡ false)
        (rules_of forest.now file) → IsOk result }
{
    if left == 0 {
        return Ok(false);
    }
    let rules = forest.rules(file);
    for (at, rule) in rules.iter().enumerate() {
        let place = RuleRef {
            file,
            rule: at as u32,
        };
        if search_rule(forest, place, rule, left - 1, space, text, found)? {
            return Ok(true);
        }
    }
    Ok(false)
}
