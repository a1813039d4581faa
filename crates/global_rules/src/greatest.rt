//! The most persons of a rule that a name reaches who signed.

ghost use Rattle.std.specs.Prelude.{◌≡◌, All, IfOk, IsSome, max};
ghost use Rattle.rule_delegations.specs.Chains.{rule_at};
ghost use Rattle.global_rules.specs.Greatest.{count_at, greatest, greatest_at};

use octets::Memory;
use ref_patterns::Space;
use root_metadata::{KeyIds, count_in};
use rule_delegations::{RuleRef, Rules};
use std::alloc::Global;

// How many persons of the rule at a place signed.
fn count_at(rules: &Rules, place: RuleRef, signers: &KeyIds) -> usize
    requires { IsSome (rule_at rules.now place) }
    ensures { result ≡ count_at rules.now signers.now place }
{
    let rule = rules.rule(place);
    count_in(&rule.persons, signers)
}

fn greater(a: usize, b: usize) -> usize
    ensures { result ≡ max a b }
{
    if a < b { b } else { a }
}

// The greatest of these over places.
fn greatest_at(rules: &Rules, places: &[RuleRef], signers: &KeyIds) -> usize
    requires { All (λ place. IsSome (rule_at rules.now place)) places.now }
    ensures { result ≡ greatest_at rules.now signers.now places.now }
{
    let mut most = 0;
    'places: for place in places {
        most = greater(most, count_at(rules, *place, signers));
    }
    most
}

/// The greatest number of persons with a key among the signers that a rule has which a name reaches; 0 where it reaches
/// none.
pub(crate) fn greatest(
    alloc: Global,
    rules: &Rules,
    space: Space,
    text: &[u8],
    signers: &KeyIds,
) -> Result<usize, Memory>
    ensures { IfOk result (λ most. most ≡ greatest rules.now (record { space = space; text = text.now }) signers.now) }
{
    let _files = rules.files();
    let places = rules.search(alloc, space, text)?;
    Ok(greatest_at(rules, places.as_slice(), signers))
}
