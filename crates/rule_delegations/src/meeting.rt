//! Whether some reached rule is met, or lists a key.

ghost use Rattle.std.specs.Prelude.{◌≡◌, Some};
ghost use Rattle.rule_delegations.specs.Chains.{rule_at};
ghost use Rattle.rule_delegations.specs.Reached.{is_listed};

use crate::RuleRef;
use crate::forest::Forest;
use crate::matching::rule_matches;
use ref_patterns::Space;
use root_metadata::{KeyId, KeyIds, Persons, count_in};
use rule_files::Rule;

/// What is asked of a rule.
#[derive(Clone, Copy, Drop)]
pub(crate) enum Asked<'a> {
    /// Whether at least its threshold of persons have a key among these.
    IsMet(&'a KeyIds),
    /// Whether one of its persons has this key.
    Lists(&'a KeyId),
}

fn is_listed(persons: &Persons, key: &KeyId) -> bool
    ensures { result ≡ is_listed persons.now key.now }
{
    let persons = persons.as_slice();
    persons
        .iter()
        .any(|person| person.keyids.has(key.as_bytes()))
}

impl Asked<'_> {
    ghost use Rattle.rule_delegations.specs.Walks.{test_of};

    // Whether it is so of a rule.
    fn is_so(&self, rule: &Rule) -> bool
        ensures { result ≡ test_of self.now rule.now }
    {
        match self {
            Asked::IsMet(signers) => rule.threshold as usize <= count_in(&rule.persons, signers),
            Asked::Lists(key) => is_listed(&rule.persons, key),
        }
    }
}

/// What a search tells.
#[derive(Clone, Copy, Drop)]
pub(crate) enum Told {
    /// It is so of a rule that it found.
    Met,
    /// It is so of none, and a terminating rule ended it.
    Stopped,
    /// It is so of none, and it goes on.
    Passed,
}

impl Told {
    ghost use Rattle.rule_delegations.specs.Telling.{ended};

    // What a rule tells of which it is not so, below which nothing ended the search.
    fn ended(terminating: bool) -> Told
        ensures { result ≡ ended terminating }
    {
        if terminating {
            return Told::Stopped;
        }
        Told::Passed
    }
}

ghost use Rattle.rule_delegations.specs.Walks.{found_at, test_of, told, walk};

/// What the search of a rule and below it tells of what is asked, through so many files.
#[cycle(meeting)]
fn tell_rule(
    forest: &Forest,
    place: RuleRef,
    rule: &Rule,
    left: u32,
    space: Space,
    text: &[u8],
    asked: &Asked<'_>,
) -> Told
    requires { rule_at forest.now place ≡ Some rule.now }
    ensures { result ≡ told forest.now (test_of asked.now)
        (found_at forest.now (record { space = space; text = text.now }) left place rule.now) }
{
    if !rule_matches(rule, space, text) {
        return Told::Passed;
    }
    if asked.is_so(rule) {
        return Told::Met;
    }
    let Some(file) = forest.below(place) else {
        return Told::ended(rule.terminating);
    };
    match tell_file(forest, file, left, space, text, asked) {
        Told::Passed => Told::ended(rule.terminating),
        told => told,
    }
}

/// What the search of a file and below it tells, through so many files.
#[cycle(meeting)]
pub(crate) fn tell_file(
    forest: &Forest,
    file: u32,
    left: u32,
    space: Space,
    text: &[u8],
    asked: &Asked<'_>,
) -> Told
    ensures { result ≡ told forest.now (test_of asked.now)
        (walk forest.now (record { space = space; text = text.now }) left file) }
{
    if left == 0 {
        return Told::Passed;
    }
    let rules = forest.rules(file);
    for (at, rule) in rules.iter().enumerate() {
        let place = RuleRef {
            file,
            rule: at as u32,
        };
        match tell_rule(forest, place, rule, left - 1, space, text, asked) {
            Told::Passed => {}
            told => return told,
        }
    }
    Told::Passed
}
