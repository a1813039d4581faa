//! Git's own things: object ids, kinds, objects, trees, commits, tags and reference names, and a repository as two
//! finite maps.
//!
//! What it promises, and where to begin: `README.md` in this crate's folder.

#![tactic(auto)]

mod bodies;
mod commits;
mod header_lines;
mod id_digits;
mod key_ids;
mod kinds;
mod modes;
mod names;
mod object_faults;
mod object_ids;
pub mod object_laws;
mod references;
mod stored_objects;
mod tags;
mod tree_entries;
mod trees;

pub use commits::Commit;
pub use key_ids::KeyId;
pub use kinds::Kind;
pub use modes::Mode;
pub use names::{LOG_NAME, RefFault, RefName};
pub use object_faults::ObjectFault;
pub use object_ids::{ObjectId, id_of};
pub use octets::{Items, Memory, Octets};
pub use stored_objects::{LARGEST_BODY, Object};
pub use tags::Tag;
pub use trees::{Tree, TreeEntries, TreeEntry};

/// A list of ids.
pub type Ids = Items<ObjectId>;

/// A list of objects.
pub type Objects = Items<Object>;
