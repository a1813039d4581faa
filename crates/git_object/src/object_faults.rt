//! Why a body was not read as an object of its kind.

ghost use Rattle.std.specs.Prelude.{◌≡◌};
ghost use Rattle.git_object.specs.declared.object_faults.ObjectFault.TheVariants as fault;

use octets::Memory;

/// Why a body was not read as a tree, a commit or a tag.
#[derive(Clone, Copy, Debug, PartialEq, Eq, Drop)]
pub enum ObjectFault {
    /// The body breaks the grammar first at this offset: that of the entry of a tree or of the line of a
    /// commit or a tag that is not as wanted.
    Malformed { at: usize },
    Memory,
}

impl From<Memory> for ObjectFault {
    ghost from_gives = { λ _ e. e ≡ fault.Memory };

    fn from(_error: Memory) -> ObjectFault {
        ObjectFault::Memory
    }
}
