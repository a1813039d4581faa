//! The text of `explain`.

ghost use Rattle.std.specs.Prelude.{◌≡◌, ◌++◌, IfOk, IsSome, OnOk};
ghost use Rattle.std.specs.List.{All};
ghost use Rattle.rule_delegations.specs.Chains.{rule_at};
ghost use Rattle.commands_policy.specs.Explaining.{AreTold, Explains, ExplainsRules, openness, rule_line};

use itoa::Buffer;
use octets::{Memory, Octets};
use policy_epochs::Epochs;
use ref_patterns::Space;
use rule_delegations::{RuleRef, Rules};
use rule_files::Rule;
use std::alloc::Global;

fn openness(terminating: bool) -> &'static [u8]
    ensures { result.now ≡ openness terminating }
{
    if terminating {
        b" terminating\n"
    } else {
        b" open\n"
    }
}

// Adds the line of a rule. After a refusal a front of it may stand there.
#[tactic(auto, unfolding(crate::specs::Explaining::rule_line))]
fn append_rule(text: &mut Octets, rule: &Rule) -> Result<(), Memory>
    ensures { OnOk result (text.new ≡ text.old ++ rule_line rule.now) }
{
    let mut digits = Buffer::new();
    text.append(b"rule ")?;
    text.append(rule.name.as_slice())?;
    text.append(b" ")?;
    text.append(digits.format(rule.threshold).as_bytes())?;
    text.append(openness(rule.terminating))
}

// The lines of the rules at these places, or of none.
fn lines_of(alloc: Global, rules: &Rules, places: &[RuleRef]) -> Result<Octets, Memory>
    requires { All (λ place. IsSome (rule_at rules.now place)) places.now }
    ensures { IfOk result (AreTold rules.now places.now) }
{
    if places.is_empty() {
        return Octets::from_slice(alloc, b"unprotected\n");
    }
    let mut text = Octets::new(alloc);
    'places: for place in places {
        match append_rule(&mut text, rules.rule(*place)) {
            Ok(()) => {}
            Err(Memory) => return Err(Memory),
        }
    }
    Ok(text)
}

// The lines of the rules that a name reaches.
fn rules_text(alloc: Global, rules: &Rules, space: Space, name: &[u8]) -> Result<Octets, Memory>
    ensures { IfOk result (ExplainsRules rules.now (record { space = space; text = name.now })) }
{
    let places = match rules.search(alloc, space, name) {
        Ok(places) => places,
        Err(Memory) => return Err(Memory),
    };
    match lines_of(alloc, rules, places.as_slice()) {
        Ok(text) => Ok(text),
        Err(Memory) => Err(Memory),
    }
}

/// What `explain` prints of a name under the policy in force, if there is one.
pub(crate) fn text_of(
    alloc: Global,
    epochs: &Epochs,
    space: Space,
    name: &[u8],
) -> Result<Octets, Memory>
    ensures { IfOk result (λ text. Explains (record { space = space; text = name.now }) epochs.now.current text) }
{
    match epochs.current() {
        None => Octets::from_slice(alloc, b"no-policy\n"),
        Some(policy) => rules_text(alloc, &policy.rules, space, name),
    }
}
