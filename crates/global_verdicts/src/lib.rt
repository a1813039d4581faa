//! The verdict on a reference by the global rules of the policies of its log, and the line that tells it.
//!
//! What it promises, and where to begin: `README.md` in this crate's folder.

#![tactic(auto)]

mod concluding;
mod in_force;
mod judging_all;
pub mod laws;
mod pass;
mod rows;
mod texts;
mod verdicts;

pub use global_rules::GlobalWhy;
pub use judging_all::judge;
pub use rsl_chain::LogFault;
pub use texts::text;
pub use verdicts::GlobalVerdict;
