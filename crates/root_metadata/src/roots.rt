//! The root of a policy: the keys and persons that it knows, and who signs what.

ghost use Rattle.std.specs.Prelude.{◌≡◌};
ghost use Rattle.root_metadata.specs.declared.roots.MetaFault.TheVariants as fault;

use crate::{Keys, Persons};
use octets::Memory;

/// Who may sign, and how many of them must.
#[derive(Drop)]
pub struct Role {
    pub persons: Persons,
    pub threshold: u32,
}

/// A root: in schema 1, where each listed key id is a person, `persons` is empty, and in schema 2 it has the persons of
/// whom roles speak. The role `root` signs the root itself, and `targets` the top file of rules.
#[derive(Drop)]
pub struct Root {
    pub schema: u32,
    pub version: u64,
    pub keys: Keys,
    pub persons: Persons,
    pub root: Role,
    pub targets: Role,
}

/// Why a text is no root. The smaller number wins, and within one the least place; within `BadCount` keys are counted
/// first.
#[derive(Clone, Copy, Debug, PartialEq, Eq, Drop)]
pub enum MetaFault {
    /// The text is no JSON.
    NotJson,
    /// A field is missing or of another kind; `type` is another; the schema is there and neither 1 nor 2; a version is
    /// not 1 to 2^64 - 1; an id of a key is not 64 lower-case hexadecimal digits; or a threshold is past 2^32 - 1.
    MissingField,
    /// There are more than 1,024 keys or persons; how many.
    BadCount { count: usize },
    /// The kind of the key is neither `lms` with 56 bytes nor `hss` with 60, as lower-case hexadecimal.
    BadKey { at: usize },
    /// The id of the key is not the SHA-256 of its public bytes.
    KeyIdDiffers { at: usize },
    /// The threshold of the role, `root` at 0 and `targets` at 1, is 0 or more than those who are listed and are of the
    /// file: in schema 1 distinct ids of keys, in schema 2 distinct names of persons.
    BadThreshold { at: usize },
    /// The person's name is not 1 to 64 bytes of `A-Z a-z 0-9 . _ -` or is an earlier person's; the person has not 1 to
    /// 16 distinct ids of keys; or an id is that of no key of the file.
    BadPerson { at: usize },
    /// An id of the person is an earlier person's.
    SharedKey { at: usize },
    Memory,
}

impl From<Memory> for MetaFault {
    ghost from_gives = { λ _ e. e ≡ fault.Memory };

    fn from(_error: Memory) -> MetaFault {
        MetaFault::Memory
    }
}
