//! Bytes, lists, causes of refusals and finite maps: what every crate of the project speaks with.
//!
//! What it promises, and where to begin: `README.md` in this crate's folder.

#![tactic(auto)]

mod escaping;
mod failing_calls;
mod item_list;
pub mod laws;
mod memory;
mod octet_list;

pub use escaping::{append_escaped, escaped_text};
pub use failing_calls::FailingCalls;
pub use item_list::{Copied, Items};
pub use memory::Memory;
pub use octet_list::Octets;
