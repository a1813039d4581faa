//! The spaces of names that patterns speak of.

ghost use Rattle.std.specs.Prelude.{◌≡◌};
ghost use Rattle.ref_patterns.specs.Patterns.{prefix, same_space, space_of};

/// What a pattern speaks of.
#[derive(Clone, Copy, Debug, PartialEq, Eq)]
pub enum Space {
    /// References, by their names.
    Git,
    /// Files, links and modules of a state, by their paths.
    File,
}

impl Space {
    /// What a pattern of this space begins with.
    pub fn prefix(self) -> &'static [u8]
        ensures { result.now ≡ prefix self }
    {
        match self {
            Space::Git => b"git:",
            Space::File => b"file:",
        }
    }

    /// Whether both are one space.
    pub fn is(self, other: Space) -> bool
        ensures { result ≡ same_space self other }
    {
        match self {
            Space::Git => match other {
                Space::Git => true,
                Space::File => false,
            },
            Space::File => match other {
                Space::Git => false,
                Space::File => true,
            },
        }
    }
}

/// The space whose prefix a text begins with.
pub(crate) fn space_of(text: &[u8]) -> Option<Space>
    ensures { result ≡ space_of text.now }
{
    if text.starts_with(b"git:") {
        return Some(Space::Git);
    }
    if text.starts_with(b"file:") {
        return Some(Space::File);
    }
    None
}
