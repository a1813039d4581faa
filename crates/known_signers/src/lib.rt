//! Who signed an envelope, and what a text of a policy or an approval is read as, found once for the same bytes.
//!
//! What it promises, and where to begin: `README.md` in this crate's folder.

#![tactic(auto)]

mod approving;
mod copies;
mod found;
mod from_texts;
mod good;
mod known;
mod payloads;
mod rows;
mod same;
mod texts;

pub use approving::approvers;
pub use copies::copied_file;
pub use known::KnownSigners;
pub use same::{Same, same_items};
