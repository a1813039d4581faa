//! What is asked, and what is answered.

use entry_rules::Fault;
use git_object::{KeyId, ObjectId, RefName};
use octets::Items;
use root_metadata::KeyIds;

/// An entry that nobody signed yet: the reference and the target that it would record, and whose keys would sign it, or
/// approve it.
#[derive(Drop)]
pub struct Proposed {
    pub name: RefName,
    pub target: ObjectId,
    pub keys: KeyIds,
}

/// What stood before it: where its reference stood, or zeros, and the target of the last entry of the attestations'
/// reference.
#[derive(Clone, Copy)]
pub struct Stood {
    pub from: ObjectId,
    pub attested: Option<ObjectId>,
}

/// What would be found of it: its faults, none where it would be authorised, and the keys of the policy that would have
/// signed it or have approved the change. Keys are told where neither state is broken, of references other than the
/// policy's.
#[derive(Drop)]
pub struct Would {
    pub faults: Items<Fault>,
    pub signers: Items<KeyId>,
}
