//! What a policy says, found of it.

ghost use Rattle.std.specs.Prelude.{◌≡◌, ◌∷◌, [], codes, IfOk, OnOk};
ghost use Rattle.std.specs.List.{fold};
ghost use Rattle.policy_changes.specs.Words.{role_threshold, role_words, root_says, says_of, with_file};

use crate::PolicySays;
use crate::words::{Threshold, Whole, add_texts, role_count, role_text};
use octets::{Items, Memory, Octets};
use policy_epochs::Policy;
use root_metadata::{Key, Person, Root};
use rule_files::{Rule, RuleFile};
use std::alloc::Global;

// Two texts.
fn both(alloc: Global, first: Octets, second: Octets) -> Result<Items<Octets>, Memory>
    ensures { IfOk result (λ texts. texts ≡ first ∷ second ∷ []) }
{
    let mut texts = Items::new(alloc);
    texts.push(first)?;
    texts.push(second)?;
    Ok(texts)
}

// Whom the roles of a root ask.
fn role_texts(alloc: Global, root: &Root) -> Result<Items<Octets>, Memory>
    ensures { IfOk result (λ texts. texts
        ≡ role_words (codes "root") root.now.root ∷ role_words (codes "targets") root.now.targets ∷ []) }
{
    let first = role_text(alloc, b"root", &root.root)?;
    let second = role_text(alloc, b"targets", &root.targets)?;
    both(alloc, first, second)
}

// How many they ask for.
fn role_counts(alloc: Global, root: &Root) -> Result<Items<Octets>, Memory>
    ensures { IfOk result (λ texts. texts
        ≡ role_threshold (codes "root") root.now.root ∷ role_threshold (codes "targets") root.now.targets ∷ []) }
{
    let first = role_count(alloc, b"root", &root.root)?;
    let second = role_count(alloc, b"targets", &root.targets)?;
    both(alloc, first, second)
}

// What a policy's keys and its root say.
fn root_says(alloc: Global, policy: &Policy) -> Result<PolicySays, Memory>
    ensures { IfOk result (λ says. says ≡ root_says policy.now) }
{
    let mut keys = Items::new(alloc);
    add_texts::<Whole, Key>(alloc, &mut keys, policy.keys.as_slice())?;
    let mut persons = Items::new(alloc);
    add_texts::<Whole, Person>(alloc, &mut persons, policy.root.persons.as_slice())?;
    let rules = role_texts(alloc, &policy.root)?;
    let thresholds = role_counts(alloc, &policy.root)?;
    Ok(PolicySays {
        keys,
        persons,
        rules,
        thresholds,
    })
}

// Adds what a rule file says.
fn add_file(alloc: Global, says: &mut PolicySays, file: &RuleFile) -> Result<(), Memory>
    ensures { OnOk result (says.new ≡ with_file says.old file.now) }
{
    add_texts::<Whole, Person>(alloc, &mut says.persons, file.persons.as_slice())?;
    add_texts::<Whole, Rule>(alloc, &mut says.rules, file.rules.as_slice())?;
    add_texts::<Threshold, Rule>(alloc, &mut says.thresholds, file.rules.as_slice())
}

fn add_files(alloc: Global, says: &mut PolicySays, files: &[RuleFile]) -> Result<(), Memory>
    ensures { OnOk result (says.new ≡ fold with_file says.old files.now) }
{
    'files: for file in files {
        add_file(alloc, says, file)?;
    }
    Ok(())
}

/// What a policy says: its keys, its persons and the roles of its root, and then the persons and rules of each of its
/// files, in their order.
#[tactic(auto, unfolding(crate::specs::Words::says_of))]
pub fn says_of(alloc: Global, policy: &Policy) -> Result<PolicySays, Memory>
    ensures { IfOk result (λ says. says ≡ says_of policy.now) }
{
    let mut says = root_says(alloc, policy)?;
    add_files(alloc, &mut says, policy.rules.files())?;
    Ok(says)
}
