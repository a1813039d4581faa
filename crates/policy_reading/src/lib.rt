//! The policy of a target, read out of a store, and the epochs of a log over a store.
//!
//! What it promises, and where to begin: `README.md` in this crate's folder.

#![tactic(auto)]

mod checking;
pub mod epoch_laws;
pub mod file_laws;
mod found_files;
mod judged_files;
mod kept_epochs;
pub mod laws;
mod loaded_files;
mod log_epochs;
mod signed_files;
mod stored_files;
mod thresholds;

pub use checking::check_policy;
pub use found_files::{FileAt, FilesAt, find_called, rule_files};
pub use kept_epochs::{extend, look};
pub use log_epochs::{epoch_fault, epochs_at, load_epochs};
pub use stored_files::{load_metadata, own_state};
