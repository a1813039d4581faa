//! Why a text is no rule file.

ghost use Rattle.std.specs.Prelude.{◌≡◌};
ghost use Rattle.rule_files.specs.declared.faults.RuleFault.TheVariants as fault;

use octets::Memory;

/// Why a text is no rule file. The smaller number wins, and within one the least place; within `BadCount` keys are
/// counted first, then rules, patterns and persons.
#[derive(Clone, Copy, Debug, PartialEq, Eq, Drop)]
pub enum RuleFault {
    /// The text is no JSON.
    NotJson,
    /// A field is missing or of another kind; `type` is another; the schema is there and neither 1 nor 2; a version is
    /// not 1 to 2^64 - 1; an id of a key is not 64 lower-case hexadecimal digits; or a threshold is past 2^32 - 1.
    MissingField,
    /// There are more than 1,024 keys, rules or persons, or a rule has not 1 to 64 patterns; how many.
    BadCount { count: usize },
    /// The kind of the key is neither `lms` with 56 bytes nor `hss` with 60, as lower-case hexadecimal.
    BadKey { at: usize },
    /// The id of the key is not the SHA-256 of its public bytes.
    KeyIdDiffers { at: usize },
    /// The threshold of the rule is 0 or more than those who are listed and are of the file: in schema 1 distinct ids
    /// of keys, in schema 2 distinct names of persons.
    BadThreshold { at: usize },
    /// The text is no pattern.
    BadPattern { rule: usize, pattern: usize },
    /// The rule's name is not 1 to 64 bytes of `A-Z a-z 0-9 . _ -`, begins with `.`, or is `root` or `targets`.
    BadName { rule: usize },
    /// The person's name is not 1 to 64 bytes of `A-Z a-z 0-9 . _ -` or is an earlier person's; the person has not 1 to
    /// 16 distinct ids of keys; or an id is that of no key of the file.
    BadPerson { at: usize },
    /// An id of the person is an earlier person's.
    SharedKey { at: usize },
    Memory,
}

impl From<Memory> for RuleFault {
    ghost from_gives = { λ _ e. e ≡ fault.Memory };

    fn from(_error: Memory) -> RuleFault {
        RuleFault::Memory
    }
}
