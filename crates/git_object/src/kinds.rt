//! The four kinds of object.

ghost use Rattle.std.specs.Prelude.{◌≡◌, ◌≢◌, ◌++◌, ◌∷◌, ℕ, List, IfSome, IfNone};

use text_reader::strip_front;

/// The kind of an object (Git's object types).
#[derive(Clone, Copy, Debug, PartialEq, Eq)]
pub enum Kind {
    Blob,
    Tree,
    Commit,
    Tag,
}

impl Kind {
    ghost use Rattle.git_object.specs.Objects.{kind_name};
    ghost use Rattle.git_object.specs.declared.kinds.Kind.{Kind};

    /// Git's word for the kind, in lower case.
    pub fn name(&self) -> &'static [u8]
        ensures { result.now ≡ kind_name self.now }
    {
        match self {
            Kind::Blob => b"blob",
            Kind::Tree => b"tree",
            Kind::Commit => b"commit",
            Kind::Tag => b"tag",
        }
    }

    /// The kind whose word and a space stand in front of the text, and what follows; None where none does.
    pub fn split_front(text: &[u8]) -> Option<(Kind, &[u8])>
        ensures found { IfSome result (λ parts. text.now ≡ kind_name parts.0 ++ 32 ∷ parts.1.now) }
        ensures none { IfNone result ((kind : Kind) (rest : List ℕ) → text.now ≢ kind_name kind ++ 32 ∷ rest) }
    {
        if let Some(rest) = strip_front(text, b"blob ") {
            return Some((Kind::Blob, rest));
        }
        if let Some(rest) = strip_front(text, b"tree ") {
            return Some((Kind::Tree, rest));
        }
        if let Some(rest) = strip_front(text, b"commit ") {
            return Some((Kind::Commit, rest));
        }
        if let Some(rest) = strip_front(text, b"tag ") {
            return Some((Kind::Tag, rest));
        }
        None
    }
}
