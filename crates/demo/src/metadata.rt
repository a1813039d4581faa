//! The persons and the root of a demonstration's policy.

ghost use Rattle.std.specs.Prelude.{◌≡◌, ◌∷◌, ◌<◌, [], All, IfOk, IsUtf8, OnOk, map};
ghost use Rattle.hex.specs.Hex.{encode_lower};
ghost use Rattle.git_object.specs.Ids.{IsId};
ghost use Rattle.metadata_writing.specs.Texts.{HasRootTexts, IsNamed};
ghost use Rattle.root_metadata.specs.Shapes.{set_of};
ghost use Rattle.demo.specs.Keys.{key_id};
ghost use Rattle.demo.specs.Policies.{demo_root, first_role, listed_key, person_of};

use crate::Keyring;
use octets::{Memory, Octets};
use root_metadata::{Key, KeyId, KeyIds, Keys, Person, Persons, Role, Root, id_set, key_id};
use std::alloc::Global;

/// The id of the key of a number.
#[tactic(auto, unfolding(crate::specs::Keys::key_id))]
pub fn id_of(keys: &Keyring, key: u64) -> KeyId
    requires { key < 3 }
    ensures { result ≡ key_id key }
{
    key_id(keys.public(key))
}

/// An id as text: lower-case hexadecimal.
pub fn id_text(alloc: Global, id: &KeyId) -> Result<Octets, Memory>
    ensures text { IfOk result (λ text. text ≡ encode_lower id.now) }
    ensures utf8 { IfOk result IsUtf8 }
    ensures valid { IsId id.now }
{
    let _ = id.as_bytes();
    let digits = hex::encode(alloc, id.0)?;
    let text = Octets::from_slice(alloc, digits.as_bytes())?;
    Ok(text)
}

fn person_of(alloc: Global, id: KeyId) -> Result<Person, Memory>
    ensures person { IfOk result (λ person. person ≡ person_of id) }
    ensures named { IfOk result IsNamed }
    ensures valid { OnOk result (IsId id) }
{
    let name = id_text(alloc, &id)?;
    let mut keyids = KeyIds::new(alloc);
    keyids.push(id)?;
    Ok(Person { name, keyids })
}

/// One person.
pub fn only(alloc: Global, id: KeyId) -> Result<Persons, Memory>
    ensures persons { IfOk result (λ persons. persons ≡ person_of id ∷ []) }
    ensures named { IfOk result (All IsNamed) }
{
    let mut persons = Persons::new(alloc);
    persons.push(person_of(alloc, id)?)?;
    Ok(persons)
}

/// A person for each id, in the order of the ids.
pub fn persons_of(alloc: Global, ids: &[KeyId]) -> Result<Persons, Memory>
    ensures persons { IfOk result (λ persons. persons ≡ map person_of (set_of ids.now)) }
    ensures named { IfOk result (All IsNamed) }
{
    let set = id_set(alloc, ids)?;
    let mut persons = Persons::new(alloc);
    'ids: for id in set.as_slice() {
        let person = person_of(alloc, *id)?;
        persons.push(person)?;
    }
    Ok(persons)
}

/// A key as a file lists it.
pub fn listed_key(alloc: Global, keys: &Keyring, key: u64) -> Result<Key, Memory>
    requires { key < 3 }
    ensures { IfOk result (λ listed. listed ≡ listed_key key) }
{
    Ok(Key {
        id: id_of(keys, key),
        public: Octets::from_slice(alloc, keys.public(key))?,
    })
}

fn first_role(alloc: Global, keys: &Keyring) -> Result<Role, Memory>
    ensures role { IfOk result (λ role. role ≡ first_role) }
    ensures named { IfOk result (λ role. All IsNamed role.persons) }
{
    Ok(Role {
        persons: only(alloc, id_of(keys, 0))?,
        threshold: 1,
    })
}

/// The root: key 0 in both roles.
pub fn demo_root(alloc: Global, keys: &Keyring) -> Result<Root, Memory>
    ensures root { IfOk result (λ root. root ≡ demo_root) }
    ensures texts { IfOk result HasRootTexts }
{
    let mut listed = Keys::new(alloc);
    listed.push(listed_key(alloc, keys, 0)?)?;
    Ok(Root {
        schema: 1,
        version: 1,
        keys: listed,
        persons: Persons::new(alloc),
        root: first_role(alloc, keys)?,
        targets: first_role(alloc, keys)?,
    })
}
