//! Keys, persons, roles and the root of a policy's metadata.
//!
//! What it promises, and where to begin: `README.md` in this crate's folder.

#![tactic(auto)]

mod judging;
mod keys;
mod known;
mod making;
mod persons;
mod raw;
mod reading;
mod rising;
mod root_reading;
mod roots;
mod sets;

pub use git_object::KeyId;
pub use judging::{
    bad_key, bad_person, has_bad_threshold, is_name, other_id, shared_key, too_many,
};
pub use keys::{Key, KeyIds, Keys, key_id};
pub use known::Known;
pub use making::{make_keys, make_persons, make_role};
pub use octets::{Items, Memory, Octets};
pub use persons::{Person, Persons, count_in};
pub use raw::{RawKey, RawRole, RawRoot, Roster};
pub use reading::{role_in, roster_in};
pub use rising::{Keyed, Rising};
pub use roots::{MetaFault, Role, Root};
pub use sets::{Names, id_set};
