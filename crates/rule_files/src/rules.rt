//! Rules, and the files that hold them.

use octets::{Items, Octets};
use ref_patterns::Pattern;
use root_metadata::{Keys, Persons};

/// The patterns of a rule.
pub type Patterns = Items<Pattern>;

/// A rule: it speaks of the names that one of its patterns matches, for which at least `threshold` of its persons must
/// sign. Where a terminating rule matches, no rule after it and after those of its own file is looked at.
#[derive(Drop)]
pub struct Rule {
    pub name: Octets,
    pub patterns: Patterns,
    pub terminating: bool,
    pub persons: Persons,
    pub threshold: u32,
}

/// The rules of a file, in the order of the file.
pub type RuleList = Items<Rule>;

/// A rule file: its name, which is `targets` for the top file and else that of the rule that it stands below; its
/// schema, where 1 has no persons of its own and each listed key id is one; its version, keys, persons and rules.
#[derive(Drop)]
pub struct RuleFile {
    pub name: Octets,
    pub schema: u32,
    pub version: u64,
    pub keys: Keys,
    pub persons: Persons,
    pub rules: RuleList,
}

/// Rule files, of which the first is the top file.
pub type RuleFiles = Items<RuleFile>;
