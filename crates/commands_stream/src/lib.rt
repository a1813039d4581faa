//! The commands that fill the store from a stream or write it as one: `import` and `export`, and opening the
//! repository that is judged.
//!
//! What it promises, and where to begin: `README.md` in this crate's folder.

#![tactic(auto)]

mod commands;
mod exporting;
mod importing;
pub mod laws;
mod opening;
pub mod over_objects;
mod taking;

pub use commands::{export, import};
pub use importing::ImportFault;
pub use opening::open;
pub use taking::{TakeFault, take_refusal};
