//! Laws over the formats of objects and their limit.

ghost use Rattle.std.specs.Prelude.{◌≡◌, ◌^◌};
ghost use Rattle.git_object.specs.Grammars.{IsGrammar};
ghost use Rattle.git_object.specs.Commits.{IsCommitFault, IsCommitText};
ghost use Rattle.git_object.specs.Tags.{IsTagFault, IsTagText};
ghost use Rattle.git_object.specs.Names.{NamesAloud};
ghost use Rattle.git_object.specs.Trees.{IsTreeFault, IsTreeText};
ghost use Rattle.git_object.specs.Repository.{largest_body};

use crate::LARGEST_BODY;

/// A commit has one text and a text at most one commit; each text is a commit's or is refused, never both, and is
/// refused at one place.
pub fn commits()
    ensures { IsGrammar IsCommitText IsCommitFault }
{}

/// A tag has one text and a text at most one tag; a text that is refused is no tag's, and is refused at one place.
pub fn tags()
    ensures { IsGrammar IsTagText IsTagFault }
{}

/// A tree has one text and a text at most one tree; a text that is refused is no tree's, and is refused at one place.
pub fn trees()
    ensures { IsGrammar IsTreeText IsTreeFault }
{}

/// The words of the grammar of reference names mean what they say: the components of a text are its parts between
/// slashes, and a pair of bytes stands in it where one stands right before the other.
pub fn names()
    ensures { NamesAloud }
{}

/// The limit of a body that the code names is the one that the definitions name: 16 MiB.
pub fn limit()
    ensures code { LARGEST_BODY ≡ 2 ^ 24 }
    ensures definition { largest_body ≡ 2 ^ 24 }
{}
