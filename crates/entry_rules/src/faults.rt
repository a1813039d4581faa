//! Why an entry is not authorised.

ghost use Rattle.std.specs.Prelude.{◌≡◌, IfOk};

use git_object::ObjectId;
use octets::{Copied, Memory, Octets};
use policy_epochs::PolicyFault;
use rule_delegations::AssembleFault;

/// Why an entry is not authorised: the first that holds, in this order. `got` counts persons of the rule who signed,
/// and `need` is its threshold.
#[derive(Drop)]
pub enum Fault {
    /// No policy is in force at the entry's number.
    NoPolicy,
    /// The state that the reference had before is broken at this object, or else the one that it takes.
    Broken {
        id: ObjectId,
    },
    /// No reached rule is met for the reference: the rule that it reaches first.
    RefRule {
        rule: Octets,
        got: usize,
        need: u32,
    },
    /// No reached rule is met for a changed path: the least such path, and the rule that it reaches first.
    PathRule {
        path: Octets,
        rule: Octets,
        got: usize,
        need: u32,
    },
    /// Of the policy's reference alone: the entry takes no effect.
    NotEpoch {
        why: PolicyFault,
    },
}

fn copied_forest(why: &AssembleFault) -> Result<AssembleFault, Memory>
    ensures { IfOk result (λ copy. copy ≡ why.now) }
{
    match why {
        AssembleFault::DuplicateName { name } => {
            Ok(AssembleFault::DuplicateName { name: name.copy()? })
        }
        AssembleFault::Unreachable { name } => {
            Ok(AssembleFault::Unreachable { name: name.copy()? })
        }
        AssembleFault::TooDeep { name } => Ok(AssembleFault::TooDeep { name: name.copy()? }),
        AssembleFault::TooMany { count } => Ok(AssembleFault::TooMany { count: *count }),
        AssembleFault::Memory => Ok(AssembleFault::Memory),
    }
}

fn copied_why(why: &PolicyFault) -> Result<PolicyFault, Memory>
    ensures { IfOk result (λ copy. copy ≡ why.now) }
{
    match why {
        PolicyFault::Unreadable => Ok(PolicyFault::Unreadable),
        PolicyFault::NoRoot => Ok(PolicyFault::NoRoot),
        PolicyFault::BadFile { file } => Ok(PolicyFault::BadFile { file: file.copy()? }),
        PolicyFault::RootThreshold { got, need } => Ok(PolicyFault::RootThreshold {
            got: *got,
            need: *need,
        }),
        PolicyFault::Forest { why } => Ok(PolicyFault::Forest {
            why: copied_forest(why)?,
        }),
        PolicyFault::FileThreshold { file, got, need } => Ok(PolicyFault::FileThreshold {
            file: file.copy()?,
            got: *got,
            need: *need,
        }),
        PolicyFault::Anchor => Ok(PolicyFault::Anchor),
        PolicyFault::RootVersion { old, new } => Ok(PolicyFault::RootVersion {
            old: *old,
            new: *new,
        }),
        PolicyFault::RootSuccession { got, need } => Ok(PolicyFault::RootSuccession {
            got: *got,
            need: *need,
        }),
        PolicyFault::FileVersion { file } => Ok(PolicyFault::FileVersion { file: file.copy()? }),
        PolicyFault::FileDropped { file } => Ok(PolicyFault::FileDropped { file: file.copy()? }),
    }
}

impl Copied for Fault {
    fn copied(&self) -> Result<Fault, Memory> {
        match self {
            Fault::NoPolicy => Ok(Fault::NoPolicy),
            Fault::Broken { id } => Ok(Fault::Broken { id: *id }),
            Fault::RefRule { rule, got, need } => Ok(Fault::RefRule {
                rule: rule.copy()?,
                got: *got,
                need: *need,
            }),
            Fault::PathRule {
                path,
                rule,
                got,
                need,
            } => {
                let path = path.copy()?;
                let rule = rule.copy()?;
                Ok(Fault::PathRule {
                    path,
                    rule,
                    got: *got,
                    need: *need,
                })
            }
            Fault::NotEpoch { why } => Ok(Fault::NotEpoch {
                why: copied_why(why)?,
            }),
        }
    }
}
