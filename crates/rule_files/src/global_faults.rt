//! Why a text is no file of global rules.

ghost use Rattle.std.specs.Prelude.{◌≡◌};
ghost use Rattle.rule_files.specs.declared.global_faults.GlobalFault.TheVariants as fault;

use octets::Memory;

/// Why a text is no file of global rules. The smaller number wins, and within one the least place; within `BadCount`
/// the rules are counted before the patterns.
#[derive(Clone, Copy, Debug, PartialEq, Eq, Drop)]
pub enum GlobalFault {
    /// The text is no JSON.
    NotJson,
    /// A field is missing or of another kind, `type` is not `global`, `kind` is neither `threshold` nor `no-rewind`, or
    /// a threshold is past 2^32 - 1.
    MissingField,
    /// There are not 1 to 64 rules, or a rule has not 1 to 64 patterns; how many.
    BadCount { count: usize },
    /// The text is no pattern, or it is one of files under a rule against rewinding.
    BadPattern { rule: usize, pattern: usize },
    /// The rule's name is not 1 to 64 bytes of `A-Z a-z 0-9 . _ -`, begins with `.`, is `root` or `targets`, or is an
    /// earlier rule's.
    BadName { rule: usize },
    /// The threshold of the rule is 0.
    BadThreshold { rule: usize },
    Memory,
}

impl From<Memory> for GlobalFault {
    ghost from_gives = { λ _ e. e ≡ fault.Memory };

    fn from(_error: Memory) -> GlobalFault {
        GlobalFault::Memory
    }
}
