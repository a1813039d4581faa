//! The rules of a policy as one forest of files, and the search of who may sign for a name.
//!
//! What it promises, and where to begin: `README.md` in this crate's folder.

#![tactic(auto)]

mod assembling;
mod counting;
mod cutting;
mod deep;
mod forest;
pub mod laws;
mod links;
mod marking;
mod matching;
mod meeting;
mod places;
mod rules;
mod searching;
mod twice;

pub use assembling::AssembleFault;
pub use places::{RuleRef, Short};
pub use rules::Rules;
