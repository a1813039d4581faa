//! Persons: who signs, whatever keys they hold.

ghost use Rattle.std.specs.Prelude.{◌≡◌};
ghost use Rattle.root_metadata.specs.Persons.{count_in, has_signed};

use crate::{KeyIds, Keyed, Rising};
use octets::{Copied, Memory, Octets};

/// A person: a name, and the ids of the keys that are this person's. Where a file knows no persons, each listed id is
/// one, named by the id in lower-case hexadecimal.
#[derive(Drop)]
pub struct Person {
    pub name: Octets,
    pub keyids: KeyIds,
}

/// A set of persons, in the order of their names' bytes.
pub type Persons = Rising<Person>;

impl Keyed for Person {
    ghost key = { λ person. person.name };

    fn key(&self) -> &[u8] {
        self.name.as_slice()
    }
}

impl Copied for Person {
    fn copied(&self) -> Result<Person, Memory> {
        let name = self.name.copy()?;
        let keyids = self.keyids.copy()?;
        Ok(Person { name, keyids })
    }
}

// Whether some key of the person is among the signers.
fn has_signed(person: &Person, signers: &KeyIds) -> bool
    ensures { result ≡ has_signed signers.now person.now }
{
    let ids = person.keyids.as_slice();
    ids.iter().any(|id| signers.has(id.as_bytes()))
}

/// How many of the persons have a key among the signers: one who signed with two keys counts once. This is what
/// thresholds are compared with. It takes no memory.
pub fn count_in(persons: &Persons, signers: &KeyIds) -> usize
    ensures { result ≡ count_in persons.now signers.now }
{
    let persons = persons.as_slice();
    persons
        .iter()
        .filter(|person| has_signed(person, signers))
        .count()
}
