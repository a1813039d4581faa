//! What holds of judged logs: what mends a violation, what stays lawful as logs grow, by whom an entry is skipped or
//! rescued, and rules for whoever asks of later entries alone.
//!
//! What it promises, and where to begin: `README.md` in this crate's folder.

#![tactic(auto)]

mod judge;
mod kept;
pub mod larger_laws;
pub mod later_laws;
pub mod laws;
mod marks;
mod mend;
mod open;
pub mod whom_laws;

pub use judge::LaterRules;
pub use kept::ByWhom;
pub use mend::Mend;
pub use open::open_to;
