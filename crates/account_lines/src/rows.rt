//! What is known of an entry once it is judged.

use entry_rules::Fault;
use git_object::ObjectId;
use judging::{EntryVerdict, KeyIds};
use octets::{Items, Octets};
use policy_changes::PolicyChange;

/// What is known of an entry once it is judged.
#[derive(Drop)]
pub struct EntryRow {
    /// Its id.
    pub id: ObjectId,
    /// The number of the entry that brought the policy into force under which it is judged; None where none is in
    /// force.
    pub epoch: Option<u64>,
    /// The number of its reference's last entry before it that is not skipped then; None of an annotation, or where
    /// there is none.
    pub prior: Option<u64>,
    /// The target of that entry.
    pub from: Option<ObjectId>,
    /// Whether the key that it names is one of the policy, and its signature is good by it.
    pub signed: bool,
    /// The keys of the policy that signed it or approved its change.
    pub signers: KeyIds,
    /// The names of the persons of the policy who have one of these keys, or of an annotation the one that signed it.
    pub persons: Items<Octets>,
    /// Whether it is authorised, refused for a fault, or an annotation.
    pub verdict: EntryVerdict<Fault>,
    /// What the policy that it brings into force changes of the one before it; None where it brings none, or there was
    /// none.
    pub changed: Option<PolicyChange>,
}

/// What later entries make of an entry of a reference.
#[derive(Clone, Copy)]
pub struct Later {
    /// The number of the first annotation that skips it.
    pub skipper: Option<u64>,
    /// The number of the first entry that rescues it, where it is refused.
    pub rescuer: Option<u64>,
}
