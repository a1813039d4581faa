//! Chains that are too long.

ghost use Rattle.std.specs.Prelude.{◌≡◌, ◌<◌, IfOk, IsSome};
ghost use Rattle.rule_delegations.specs.Chains.{rule_at};
ghost use Rattle.rule_delegations.specs.Deep.{BeginsAt, BeginsIn, IsDeepName, IsFirstEnd};
ghost use Rattle.rule_delegations.specs.Forests.{AreDistinct};

use crate::RuleRef;
use crate::forest::Forest;
use octets::{Memory, Octets};

/// How many rules a chain has that is one too long.
const TOO_DEEP: u32 = 9;

// The place at which the first chain of so many rules ends that begins at a rule.
#[cycle(deepening)]
fn deep_rule(forest: &Forest, place: RuleRef, left: u32) -> Option<RuleRef>
    requires rule { IsSome (rule_at forest.now place) }
    requires distinct { AreDistinct forest.now }
    requires some { 0 < left }
    ensures { IsFirstEnd (BeginsAt forest.now place left) result }
{
    if left == 1 {
        return Some(place);
    }
    match forest.below(place) {
        Some(file) => deep_file(forest, file, left - 1),
        None => None,
    }
}

// The place at which the first chain of so many rules ends that begins in a file.
#[cycle(deepening)]
fn deep_file(forest: &Forest, file: u32, left: u32) -> Option<RuleRef>
    requires distinct { AreDistinct forest.now }
    requires some { 0 < left }
    ensures { IsFirstEnd (BeginsIn forest.now file 0 left) result }
{
    for at in 0..forest.rules(file).len() {
        let place = RuleRef {
            file,
            rule: at as u32,
        };
        if let Some(end) = deep_rule(forest, place, left) {
            return Some(end);
        }
    }
    None
}

/// The name of the first rule in pre-order that is the ninth of a chain.
pub(crate) fn too_deep(forest: &Forest) -> Result<Option<Octets>, Memory>
    requires { AreDistinct forest.now }
    ensures { IfOk result (IsDeepName forest.now) }
{
    let Some(place) = deep_file(forest, 0, TOO_DEEP) else {
        return Ok(None);
    };
    let rule = forest.rule(place).unwrap();
    Ok(Some(rule.name.copy()?))
}
