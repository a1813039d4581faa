//! What is judged of an entry, and why it breaks global rules.

use git_object::{ObjectId, RefName};
use octets::{Copied, Memory, Octets};
use root_metadata::KeyIds;

/// A change of a reference from one target to another, and the keys that signed for it.
#[derive(Drop)]
pub struct Change {
    pub name: RefName,
    pub from: ObjectId,
    pub target: ObjectId,
    pub signers: KeyIds,
}

/// Why an entry breaks global rules.
#[derive(Drop)]
pub enum GlobalWhy {
    /// The file of global rules of the policy in force is none: it is refused, or too few signed it.
    BadFile,
    /// A rule speaks of a name, `git:` and the reference or `file:` and a path that changed, for which too few persons
    /// of any rule that is reached signed: the most, and how many must.
    Threshold {
        rule: Octets,
        name: Octets,
        got: usize,
        need: u32,
    },
    /// The target does not descend from where the reference stood.
    Rewound {
        rule: Octets,
    },
    /// Whether it does is too far to tell.
    TooFar {
        rule: Octets,
    },
}

impl Copied for GlobalWhy {
    fn copied(&self) -> Result<GlobalWhy, Memory> {
        match self {
            GlobalWhy::BadFile => Ok(GlobalWhy::BadFile),
            GlobalWhy::Threshold {
                rule,
                name,
                got,
                need,
            } => Ok(GlobalWhy::Threshold {
                rule: rule.copy()?,
                name: name.copy()?,
                got: *got,
                need: *need,
            }),
            GlobalWhy::Rewound { rule } => Ok(GlobalWhy::Rewound { rule: rule.copy()? }),
            GlobalWhy::TooFar { rule } => Ok(GlobalWhy::TooFar { rule: rule.copy()? }),
        }
    }
}
