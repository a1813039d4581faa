//! The small policies, and the faults of entries under them.

ghost use Rattle.std.specs.Prelude.{◌≡◌, IfOk};

use git_object::KeyId;
use octets::{Copied, Memory};

/// A policy: the one key that may sign.
#[derive(Clone, Copy, Debug, PartialEq, Eq, Drop)]
pub struct Holder {
    pub key: KeyId,
}

/// Why an entry is refused.
#[derive(Clone, Copy, Debug, PartialEq, Eq, Drop)]
pub enum SmallFault {
    /// No policy was in force.
    NoPolicy,
    /// A policy's entry names no signer.
    Unsigned,
    /// Another key than the holder's signed, or none.
    Stranger,
}

impl Copied for SmallFault {
    /// The same fault. It takes no memory.
    fn copied(&self) -> Result<SmallFault, Memory>
        ensures copy { IfOk result (λ copy. copy ≡ self.now) }
    {
        Ok(*self)
    }
}
