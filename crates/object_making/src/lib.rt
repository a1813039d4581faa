//! The objects that the program itself makes: Git's trees of a sorted listing of paths, a tree with one entry put in
//! its place, and commits.
//!
//! What it promises, and where to begin: `README.md` in this crate's folder.

#![tactic(auto)]

mod commits;
mod editing;
pub mod editing_laws;
mod entries;
pub mod laws;
mod listed;
mod listings;
mod making;
mod rows;

pub use commits::{author_text, commit_object};
pub use editing::put_entry;
pub use listed::Listed;
pub use listings::{Listing, ListingFault, read_listing};
pub use making::make_trees;
