//! Making what is kept from metadata as it is written.

ghost use Rattle.std.specs.Prelude.{◌≡◌, ◌∷◌, ◌++◌, [], IfOk, OnOk, map, unwrap_or};
ghost use Rattle.std.specs.List.{cons_option, find};
ghost use Rattle.std.specs.Option.{option_copied};
ghost use Rattle.root_metadata.specs.Judged.{is_named, public_of};
ghost use Rattle.root_metadata.specs.Made.{all_names, key_made, own_persons, person_made, persons_made, role_made};

use crate::sets::name_set;
use crate::{
    Key, KeyId, KeyIds, Keys, Names, Person, Persons, RawKey, RawRole, Rising, Role, Roster,
};
use json_fields::read_hex;
use octets::{Copied, Items, Memory, Octets};
use std::alloc::Global;

// The public bytes of a key, or none where its text is none.
fn public_made(alloc: Global, key: &RawKey) -> Result<Octets, Memory>
    ensures { IfOk result (λ public. public ≡ unwrap_or (public_of key.now) []) }
{
    if key.keytype.as_slice() == b"lms".as_slice() {
        return match read_hex::<56>(key.public.as_slice()) {
            Some(public) => Octets::from_slice(alloc, &public),
            None => Ok(Octets::new(alloc)),
        };
    }
    if key.keytype.as_slice() == b"hss".as_slice() {
        return match read_hex::<60>(key.public.as_slice()) {
            Some(public) => Octets::from_slice(alloc, &public),
            None => Ok(Octets::new(alloc)),
        };
    }
    Ok(Octets::new(alloc))
}

/// The keys.
pub fn make_keys(alloc: Global, keys: &[RawKey]) -> Result<Keys, Memory>
    ensures { IfOk result (λ made. made ≡ map key_made keys.now) }
{
    let mut made = Items::new(alloc);
    'keys: for key in keys {
        let public = public_made(alloc, key)?;
        made.push(Key { id: key.id, public })?;
    }
    Ok(made)
}

// The first person of a name, lent.
fn find_person<'p>(persons: &'p [Person], name: &[u8]) -> Option<&'p Person>
    ensures { option_copied result ≡ find (is_named name.now) persons.now }
{
    persons.iter().find(|person| person.name.as_slice() == name)
}

// The person whose only key this is, named by the text of its id.
fn only_key(alloc: Global, text: &Octets, id: KeyId) -> Result<Person, Memory>
    ensures { IfOk result (λ person. person ≡ record { name = text.now; keyids = id ∷ [] }) }
{
    let mut keyids = KeyIds::new(alloc);
    keyids.push(id)?;
    let name = text.copy()?;
    Ok(Person { name, keyids })
}

// The person that a listed text is, if it is one.
fn make_person(alloc: Global, roster: &Roster, text: &Octets) -> Result<Option<Person>, Memory>
    ensures { IfOk result (λ person. person ≡ person_made roster.now text.now) }
{
    if roster.schema != 1 {
        let Some(person) = find_person(roster.persons.as_slice(), text.as_slice()) else {
            return Ok(None);
        };
        return Ok(Some(person.copied()?));
    }
    let Some(id) = read_hex::<32>(text.as_slice()) else {
        return Ok(None);
    };
    Ok(Some(only_key(alloc, text, KeyId(id))?))
}

// Adds a person at the end, if there is one.
fn add_person(persons: &mut Items<Person>, person: Option<Person>) -> Result<(), Memory>
    ensures { OnOk result (persons.new ≡ persons.old ++ cons_option person []) }
{
    match person {
        Some(person) => persons.push(person),
        None => Ok(()),
    }
}

// The persons that are listed.
fn make_listed(alloc: Global, roster: &Roster, listed: &Names) -> Result<Persons, Memory>
    ensures { IfOk result (λ persons. persons ≡ persons_made roster.now listed.now) }
{
    let mut made = Items::new(alloc);
    'listed: for text in listed.as_slice() {
        let person = make_person(alloc, roster, text)?;
        add_person(&mut made, person)?;
    }
    Ok(Rising::from_rising(made))
}

/// The role that is written.
pub fn make_role(alloc: Global, roster: &Roster, role: &RawRole) -> Result<Role, Memory>
    ensures { IfOk result (λ made. made ≡ role_made roster.now role.now) }
{
    let persons = make_listed(alloc, roster, &role.listed)?;
    Ok(Role {
        persons,
        threshold: role.threshold,
    })
}

/// All names of persons of the file.
pub(crate) fn copy_names(alloc: Global, persons: &[Person]) -> Result<Items<Octets>, Memory>
    ensures { IfOk result (λ names. names ≡ map (λ p. p.name) persons.now) }
{
    let mut names = Items::new(alloc);
    'persons: for person in persons {
        names.push(person.name.copy()?)?;
    }
    Ok(names)
}

/// The file's own persons, in the order of their names.
pub fn make_persons(alloc: Global, roster: &Roster) -> Result<Persons, Memory>
    ensures { IfOk result (λ persons. persons ≡ own_persons roster.now) }
{
    if roster.schema == 1 {
        return Ok(Persons::new(alloc));
    }
    let names = copy_names(alloc, roster.persons.as_slice())?;
    let listed = name_set(alloc, names.as_slice())?;
    make_listed(alloc, roster, &listed)
}
