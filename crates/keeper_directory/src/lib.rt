//! A store of Git objects and references in the files of a folder.
//!
//! What it promises, and where to begin: `README.md` in this crate's folder.

#![tactic(auto)]

mod commits;
mod dir_keepers;
mod file_calls;
mod file_faults;
mod folders;
mod journals;
mod keeper_calls;
mod kept_files;
mod key_sets;
pub mod laws;
mod leaving;
mod listings;
mod made_folders;
mod marks;
mod mending;
mod object_files;
mod open_faults;
mod places;
mod ref_files;
mod ref_plans;
mod stores;

pub use dir_keepers::DirKeeper;
pub use open_faults::OpenFault;
