//! Stores over stores: a change laid over one, a cache before one, one of two kinds, and one that is lent; and a disk
//! of one of two kinds.
//!
//! What it promises, and where to begin: `README.md` in this crate's folder.

#![tactic(auto)]

mod cached;
mod cached_objects;
mod either_disk;
mod either_keeper;
mod indexed_change;
mod indexing;
mod lent;
mod overlay;
mod replacing;

pub use cached::CachedKeeper;
pub use either_disk::EitherDisk;
pub use either_keeper::EitherKeeper;
pub use indexed_change::IndexedChange;
pub use lent::LentKeeper;
pub use overlay::Overlay;
pub use replacing::replaces;
