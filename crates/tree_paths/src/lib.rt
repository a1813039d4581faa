//! The states of targets, and what changed between two of them.
//!
//! What it promises, and where to begin: `README.md` in this crate's folder.

#![tactic(auto)]

mod additions;
mod blob_reads;
mod comparison;
mod counts;
mod double_walk;
mod heads;
mod known_trees;
pub mod laws;
mod lookups;
mod object_reads;
mod opened_trees;
mod paired_counts;
mod paired_walk;
mod path_walk;
mod peeled_targets;
mod places;
mod read_trees;
mod roots;
mod shared_tree;
mod sides;
mod states;
mod tree_walk;

pub use additions::learn;
pub use blob_reads::load_blob;
pub use comparison::{compare, compare_known, compare_roots, root_id};
pub use counts::is_dir;
pub use heads::Peeled;
pub use known_trees::KnownTrees;
pub use lookups::{entry_named, load_at, load_entry, split_at_slash};
pub use object_reads::load_tree;
pub use peeled_targets::root_of;
pub use places::compare_entries;
pub use states::{Comparison, Paths, State, state_of};
