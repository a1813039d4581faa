//! What is kept of a policy.

ghost use Rattle.std.specs.Prelude.{◌≡◌};

use dsse_envelope::Envelope;
use octets::{Items, Octets};
use root_metadata::{Keys, Root};
use rule_delegations::Rules;

/// A rule file as policies after it are compared with it: its name, the payload of its envelope, its version, and the
/// name of the file that holds the rule of its name. The top file, `targets`, has no holder.
#[derive(Drop)]
pub struct PolicyFile {
    pub name: Octets,
    pub payload: Octets,
    pub version: u64,
    pub holder: Option<Octets>,
}

/// A policy: its root, the rules of its files, and the keys of its root and of all its files. Beside them it keeps the
/// root's envelope, by which a later root's right to follow is judged, and the files, the top file first and the others
/// by name.
#[derive(Drop)]
pub struct Policy {
    pub root: Root,
    pub rules: Rules,
    pub keys: Keys,
    pub(crate) envelope: Envelope,
    pub(crate) files: Items<PolicyFile>,
}

impl Policy {
    /// The policy of these parts: the files stand with the top file first and the others by name, and no two have one
    /// name.
    pub fn new(
        root: Root,
        rules: Rules,
        keys: Keys,
        envelope: Envelope,
        files: Items<PolicyFile>,
    ) -> Policy
        ensures { result ≡ record { root = root; rules = rules; keys = keys; envelope = envelope; files = files } }
    {
        Policy {
            root,
            rules,
            keys,
            envelope,
            files,
        }
    }
}
