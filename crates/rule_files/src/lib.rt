//! Rule files of a policy: who may sign for which references and files; and its files of global rules.
//!
//! What it promises, and where to begin: `README.md` in this crate's folder.

#![tactic(auto)]

mod faults;
mod global_faults;
mod global_judging;
mod global_raw;
mod global_reading;
mod global_rules;
mod global_shapes;
mod judging;
mod raw;
mod reading;
mod rules;
mod shapes;

pub use faults::RuleFault;
pub use global_faults::GlobalFault;
pub use global_rules::{GlobalFile, GlobalKind, GlobalRule, GlobalRules};
pub use octets::{Items, Memory, Octets};
pub use ref_patterns::{Pattern, Space};
pub use root_metadata::{Keys, Persons};
pub use rules::{Patterns, Rule, RuleFile, RuleFiles, RuleList};
