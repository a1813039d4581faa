//! What a policy says.

use octets::{Items, Octets};

/// What a policy says, a text for each thing: the ids of its keys, its persons with the ids of theirs, who is asked by
/// each role and rule, and how many of them.
#[derive(Drop)]
pub struct PolicySays {
    pub keys: Items<Octets>,
    pub persons: Items<Octets>,
    pub rules: Items<Octets>,
    pub thresholds: Items<Octets>,
}
