//! What is said by one policy and not by another.

ghost use Rattle.std.specs.Prelude.{◌≡◌, IfOk, OnOk};
ghost use Rattle.std.specs.List.{fold};
ghost use Rattle.policy_changes.specs.Names.{has_name, with_name};
ghost use Rattle.policy_changes.specs.Changes.{beyond, change_said, difference_of, with_beyond};

use crate::PolicySays;
use octets::{Items, Memory, Octets};
use std::alloc::Global;

/// The texts that are said now and were not, and those that were said and are not now, each once.
#[derive(Drop)]
pub struct Difference {
    pub added: Items<Octets>,
    pub removed: Items<Octets>,
}

/// What a policy changes of the one before it.
#[derive(Drop)]
pub struct PolicyChange {
    pub keys: Difference,
    pub persons: Difference,
    pub rules: Difference,
    pub thresholds: Difference,
}

fn has_text(texts: &[Octets], text: &Octets) -> bool
    ensures { result ≡ has_name texts.now text.now }
{
    texts
        .iter()
        .any(|other| other.as_slice() == text.as_slice())
}

// Adds a text at the end, unless it is there.
fn add_text(texts: &mut Items<Octets>, text: &Octets) -> Result<(), Memory>
    ensures { OnOk result (texts.new ≡ with_name texts.old text.now) }
{
    if has_text(texts.as_slice(), text) {
        return Ok(());
    }
    let text = text.copy()?;
    texts.push(text)
}

// Adds a text that is not among others.
fn add_beyond(there: &[Octets], found: &mut Items<Octets>, text: &Octets) -> Result<(), Memory>
    ensures { OnOk result (found.new ≡ with_beyond there.now found.old text.now) }
{
    if has_text(there, text) {
        return Ok(());
    }
    add_text(found, text)
}

// The texts that are not among others, each once.
fn beyond(alloc: Global, there: &[Octets], texts: &[Octets]) -> Result<Items<Octets>, Memory>
    ensures { IfOk result (λ found. found ≡ beyond there.now texts.now) }
{
    let mut found = Items::new(alloc);
    'texts: for text in texts {
        add_beyond(there, &mut found, text)?;
    }
    Ok(found)
}

fn difference_of(
    alloc: Global,
    was: &Items<Octets>,
    now: &Items<Octets>,
) -> Result<Difference, Memory>
    ensures { IfOk result (λ told. told ≡ difference_of was.now now.now) }
{
    let added = beyond(alloc, was.as_slice(), now.as_slice())?;
    let removed = beyond(alloc, now.as_slice(), was.as_slice())?;
    Ok(Difference { added, removed })
}

/// What changed from what a policy says to what another does.
#[tactic(auto, unfolding(crate::specs::Changes::change_said))]
pub fn change_said(
    alloc: Global,
    was: &PolicySays,
    now: &PolicySays,
) -> Result<PolicyChange, Memory>
    ensures { IfOk result (λ change. change ≡ change_said was.now now.now) }
{
    let keys = difference_of(alloc, &was.keys, &now.keys)?;
    let persons = difference_of(alloc, &was.persons, &now.persons)?;
    let rules = difference_of(alloc, &was.rules, &now.rules)?;
    let thresholds = difference_of(alloc, &was.thresholds, &now.thresholds)?;
    Ok(PolicyChange {
        keys,
        persons,
        rules,
        thresholds,
    })
}
