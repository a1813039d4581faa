//! The names of the persons who hold one of some keys.

ghost use Rattle.std.specs.Prelude.{◌≡◌, ◌∷◌, [], Some, IfOk, OnOk};
ghost use Rattle.std.specs.List.{fold, list_any};
ghost use Rattle.std.specs.Option.{option_copied};
ghost use Rattle.std.specs.Str.{bytes_eq};
ghost use Rattle.policy_changes.specs.Persons.{file_holders, holders, holds, persons_of};
ghost use Rattle.policy_changes.specs.Names.{has_name, with_name};

use git_object::KeyId;
use octets::{Items, Memory, Octets};
use policy_epochs::Policy;
use root_metadata::{Person, Persons};
use rule_files::RuleFile;
use std::alloc::Global;

fn is_among(keys: &[KeyId], id: &KeyId) -> bool
    ensures { result ≡ list_any (λ key. bytes_eq key id.now) keys.now }
{
    keys.iter().any(|key| key.as_bytes() == id.as_bytes())
}

// Whether the person has one of these keys.
fn holds(person: &Person, keys: &[KeyId]) -> bool
    ensures { result ≡ holds keys.now person.now }
{
    let ids = person.keyids.as_slice();
    ids.iter().any(|id| is_among(keys, id))
}

fn has_name(names: &[Octets], name: &Octets) -> bool
    ensures { result ≡ has_name names.now name.now }
{
    names
        .iter()
        .any(|other| other.as_slice() == name.as_slice())
}

// Adds a name at the end, unless it is there.
fn add_name(names: &mut Items<Octets>, name: &Octets) -> Result<(), Memory>
    ensures { OnOk result (names.new ≡ with_name names.old name.now) }
{
    if has_name(names.as_slice(), name) {
        return Ok(());
    }
    let name = name.copy()?;
    names.push(name)
}

// Adds the name of a person who has one of the keys, unless it is there.
fn add_person(names: &mut Items<Octets>, person: &Person, keys: &[KeyId]) -> Result<(), Memory>
    ensures { OnOk result (names.new ≡ fold with_name names.old (holders keys.now (person.now ∷ []))) }
{
    if !holds(person, keys) {
        return Ok(());
    }
    add_name(names, &person.name)
}

fn add_persons(names: &mut Items<Octets>, persons: &Persons, keys: &[KeyId]) -> Result<(), Memory>
    ensures { OnOk result (names.new ≡ fold with_name names.old (holders keys.now persons.now)) }
{
    let persons = persons.as_slice();
    'persons: for person in persons {
        add_person(names, person, keys)?;
    }
    Ok(())
}

fn add_files(names: &mut Items<Octets>, files: &[RuleFile], keys: &[KeyId]) -> Result<(), Memory>
    ensures { OnOk result (names.new ≡ fold with_name names.old (file_holders keys.now files.now)) }
{
    'files: for file in files {
        add_persons(names, &file.persons, keys)?;
    }
    Ok(())
}

fn persons_in(alloc: Global, policy: &Policy, keys: &[KeyId]) -> Result<Items<Octets>, Memory>
    ensures { IfOk result (λ names. names ≡ persons_of (Some policy.now) keys.now) }
{
    let mut names = Items::new(alloc);
    add_persons(&mut names, &policy.root.persons, keys)?;
    add_files(&mut names, policy.rules.files(), keys)?;
    Ok(names)
}

/// The names of those persons of a policy's root and of its rule files who have one of these keys, each once, in the
/// order of the files and in each by the names' bytes. A policy whose files know no persons names none.
pub fn persons_of(
    alloc: Global,
    policy: Option<&Policy>,
    keys: &[KeyId],
) -> Result<Items<Octets>, Memory>
    ensures { IfOk result (λ names. names ≡ persons_of (option_copied policy.entry) keys.now) }
{
    match policy {
        Some(policy) => persons_in(alloc, policy, keys),
        None => Ok(Items::new(alloc)),
    }
}
