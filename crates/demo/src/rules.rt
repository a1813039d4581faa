//! The rules of a demonstration.

ghost use Rattle.std.specs.Prelude.{◌≡◌, ◌∷◌, [], All, IfOk, Ok};
ghost use Rattle.metadata_writing.specs.Texts.{HasFileTexts, HasRuleTexts, IsNamed};
ghost use Rattle.ref_patterns.specs.Patterns.{Parts, reading};
ghost use Rattle.root_metadata.specs.declared.persons.Person.{Person};
ghost use Rattle.rule_files.specs.declared.rules.Rule.{Rule};
ghost use Rattle.demo.specs.Policies.{demo_top, keys_rule, main_rule};

use crate::Keyring;
use crate::metadata::{id_of, listed_key, only, persons_of};
use octets::{Memory, Octets};
use ref_patterns::Pattern;
use root_metadata::{Keys, Persons};
use rule_files::{Patterns, Rule, RuleFile, RuleList};
use std::alloc::Global;

// The pattern of a text, alone.
fn patterns_of(alloc: Global, text: &[u8]) -> Result<Patterns, Memory>
    ensures { IfOk result (λ patterns. (pattern : Parts) → reading text.now ≡ Ok pattern → patterns ≡ pattern ∷ []) }
{
    let Ok(pattern) = Pattern::read(alloc, text) else {
        return Err(Memory);
    };
    let mut patterns = Patterns::new(alloc);
    patterns.push(pattern)?;
    Ok(patterns)
}

// Key 1 alone changes what is below keys/.
fn keys_rule(alloc: Global, keys: &Keyring) -> Result<Rule, Memory>
    ensures rule { IfOk result (λ rule. rule ≡ keys_rule) }
    ensures texts { IfOk result HasRuleTexts }
{
    let name = Octets::from_slice(alloc, b"keys")?;
    let patterns = patterns_of(alloc, b"file:keys/*")?;
    let persons = only(alloc, id_of(keys, 1))?;
    Ok(Rule {
        name,
        patterns,
        terminating: true,
        persons,
        threshold: 1,
    })
}

// Each of the three moves the branch.
fn main_rule(alloc: Global, keys: &Keyring) -> Result<Rule, Memory>
    ensures rule { IfOk result (λ rule. rule ≡ main_rule) }
    ensures texts { IfOk result HasRuleTexts }
{
    let ids = [id_of(keys, 0), id_of(keys, 1), id_of(keys, 2)];
    let name = Octets::from_slice(alloc, b"main")?;
    let patterns = patterns_of(alloc, b"git:refs/heads/main")?;
    let persons = persons_of(alloc, &ids)?;
    Ok(Rule {
        name,
        patterns,
        terminating: false,
        persons,
        threshold: 1,
    })
}

fn all_keys(alloc: Global, keys: &Keyring) -> Result<Keys, Memory>
    ensures { IfOk result (λ listed. listed ≡ demo_top.keys) }
{
    let mut listed = Keys::new(alloc);
    listed.push(listed_key(alloc, keys, 0)?)?;
    listed.push(listed_key(alloc, keys, 1)?)?;
    listed.push(listed_key(alloc, keys, 2)?)?;
    Ok(listed)
}

/// The top file.
pub fn demo_top(alloc: Global, keys: &Keyring) -> Result<RuleFile, Memory>
    ensures top { IfOk result (λ top. top ≡ demo_top) }
    ensures texts { IfOk result HasFileTexts }
{
    let mut rules = RuleList::new(alloc);
    rules.push(keys_rule(alloc, keys)?)?;
    rules.push(main_rule(alloc, keys)?)?;
    let name = Octets::from_slice(alloc, b"targets")?;
    let listed = all_keys(alloc, keys)?;
    Ok(RuleFile {
        name,
        schema: 1,
        version: 1,
        keys: listed,
        persons: Persons::new(alloc),
        rules,
    })
}
