//! Whether two values are one.

ghost use Rattle.std.specs.Prelude.{◌≡◌, ◌↔◌, IsTrue};

use dsse_envelope::{Envelope, Signature};
use octets::Octets;
use ref_patterns::{Pattern, Space};
use root_metadata::{Key, KeyId, Person};
use rule_files::{Rule, RuleFile};
use text_reader::same_bytes;

/// Values that are told apart.
pub trait Same: Sized {
    /// Whether both are one. It takes no memory.
    fn is_same(&self, other: &Self) -> bool
        ensures { IsTrue result ↔ (self.now ≡ other.now) };
}

/// Whether two lists have the same items.
pub fn same_items<T: Same>(left: &[T], right: &[T]) -> bool
    ensures { IsTrue result ↔ (left.now ≡ right.now) }
{
    let mut first = left;
    let mut second = right;
    'items: while let Some((item, more)) = first.split_first() {
        let Some((other, after)) = second.split_first() else {
            return false;
        };
        if !item.is_same(other) {
            return false;
        }
        first = more;
        second = after;
    }
    second.is_empty()
}

impl Same for Octets {
    fn is_same(&self, other: &Octets) -> bool {
        same_bytes(self.as_slice(), other.as_slice())
    }
}

impl Same for KeyId {
    fn is_same(&self, other: &KeyId) -> bool {
        same_bytes(self.as_bytes(), other.as_bytes())
    }
}

impl Same for Signature {
    fn is_same(&self, other: &Signature) -> bool {
        if !self.keyid.is_same(&other.keyid) {
            return false;
        }
        self.sig.is_same(&other.sig)
    }
}

impl Same for Envelope {
    fn is_same(&self, other: &Envelope) -> bool {
        if !self.payload_type.is_same(&other.payload_type) {
            return false;
        }
        if !self.payload.is_same(&other.payload) {
            return false;
        }
        same_items(self.signatures.as_slice(), other.signatures.as_slice())
    }
}

impl Same for Key {
    fn is_same(&self, other: &Key) -> bool {
        if !self.id.is_same(&other.id) {
            return false;
        }
        self.public.is_same(&other.public)
    }
}

impl Same for Person {
    fn is_same(&self, other: &Person) -> bool {
        if !self.name.is_same(&other.name) {
            return false;
        }
        same_items(self.keyids.as_slice(), other.keyids.as_slice())
    }
}

// Whether two spaces are one.
fn same_space(left: Space, right: Space) -> bool
    ensures { IsTrue result ↔ (left ≡ right) }
{
    left == right
}

impl Same for Pattern {
    fn is_same(&self, other: &Pattern) -> bool {
        if !same_space(self.space(), other.space()) {
            return false;
        }
        same_bytes(self.glob(), other.glob())
    }
}

impl Same for Rule {
    fn is_same(&self, other: &Rule) -> bool {
        if self.terminating != other.terminating {
            return false;
        }
        if self.threshold != other.threshold {
            return false;
        }
        if !self.name.is_same(&other.name) {
            return false;
        }
        if !same_items(self.patterns.as_slice(), other.patterns.as_slice()) {
            return false;
        }
        same_items(self.persons.as_slice(), other.persons.as_slice())
    }
}

impl Same for RuleFile {
    fn is_same(&self, other: &RuleFile) -> bool {
        if self.schema != other.schema {
            return false;
        }
        if self.version != other.version {
            return false;
        }
        if !self.name.is_same(&other.name) {
            return false;
        }
        if !same_items(self.keys.as_slice(), other.keys.as_slice()) {
            return false;
        }
        if !same_items(self.persons.as_slice(), other.persons.as_slice()) {
            return false;
        }
        same_items(self.rules.as_slice(), other.rules.as_slice())
    }
}
