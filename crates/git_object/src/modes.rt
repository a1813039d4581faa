//! The modes of a tree's entries.

ghost use Rattle.std.specs.Prelude.{◌≡◌, ◌≢◌, ◌++◌, ◌∷◌, ℕ, List, IfSome, IfNone};

use text_reader::strip_front;

/// What a tree's entry names (Git's tree object): a directory, a file, an executable file, a symbolic link, or
/// a commit of another repository.
#[derive(Clone, Copy, Debug, PartialEq, Eq)]
pub enum Mode {
    Dir,
    File,
    Exec,
    Link,
    Module,
}

impl Mode {
    ghost use Rattle.git_object.specs.Modes.{key_end, mode_text};
    ghost use Rattle.git_object.specs.declared.modes.Mode.{Mode};

    /// The mode in octal digits, without leading zeros.
    pub fn text(&self) -> &'static [u8]
        ensures { result.now ≡ mode_text self.now }
    {
        match self {
            Mode::Dir => b"40000",
            Mode::File => b"100644",
            Mode::Exec => b"100755",
            Mode::Link => b"120000",
            Mode::Module => b"160000",
        }
    }

    /// What a name is taken to end in where a tree's entries are ordered: `/` for a directory, else nothing.
    pub fn key_end(&self) -> &'static [u8]
        ensures { result.now ≡ key_end self.now }
    {
        match self {
            Mode::Dir => b"/",
            Mode::File | Mode::Exec | Mode::Link | Mode::Module => b"",
        }
    }

    /// The mode whose digits and a space stand in front of the text, and what follows; None where none does.
    pub fn split_front(text: &[u8]) -> Option<(Mode, &[u8])>
        ensures found { IfSome result (λ parts. text.now ≡ mode_text parts.0 ++ 32 ∷ parts.1.now) }
        ensures none { IfNone result ((mode : Mode) (rest : List ℕ) → text.now ≢ mode_text mode ++ 32 ∷ rest) }
    {
        if let Some(rest) = strip_front(text, b"40000 ") {
            return Some((Mode::Dir, rest));
        }
        if let Some(rest) = strip_front(text, b"100644 ") {
            return Some((Mode::File, rest));
        }
        if let Some(rest) = strip_front(text, b"100755 ") {
            return Some((Mode::Exec, rest));
        }
        if let Some(rest) = strip_front(text, b"120000 ") {
            return Some((Mode::Link, rest));
        }
        if let Some(rest) = strip_front(text, b"160000 ") {
            return Some((Mode::Module, rest));
        }
        None
    }
}
