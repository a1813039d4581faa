//! The first policy of a log.

ghost use Rattle.std.specs.Prelude.{◌≡◌};
ghost use Rattle.std.specs.List.{list_all};
ghost use Rattle.policy_epochs.specs.Succession.{are_exactly, is_given, is_known};

use root_metadata::{KeyId, KeyIds, Person, Persons};

// Whether each key of the person is among the ids.
fn is_given(person: &Person, ids: &KeyIds) -> bool
    ensures { result ≡ is_given ids.now person.now }
{
    let own = person.keyids.as_slice();
    own.iter().all(|id| ids.has(id.as_bytes()))
}

// Whether the id is that of a key of some person.
fn is_known(persons: &Persons, id: &KeyId) -> bool
    ensures { result ≡ is_known persons.now id.now }
{
    let persons = persons.as_slice();
    persons
        .iter()
        .any(|person| person.keyids.has(id.as_bytes()))
}

fn are_given(persons: &[Person], ids: &KeyIds) -> bool
    ensures { result ≡ list_all (is_given ids.now) persons.now }
{
    persons.iter().all(|person| is_given(person, ids))
}

fn are_known(persons: &Persons, ids: &[KeyId]) -> bool
    ensures { result ≡ list_all (is_known persons.now) ids.now }
{
    ids.iter().all(|id| is_known(persons, id))
}

/// Whether the keys of the persons are exactly those of the ids. It takes no memory.
pub(crate) fn are_exactly(persons: &Persons, ids: &KeyIds) -> bool
    ensures { result ≡ are_exactly ids.now persons.now }
{
    are_given(persons.as_slice(), ids) && are_known(persons, ids.as_slice())
}
