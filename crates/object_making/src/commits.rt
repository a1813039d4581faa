//! The commits that the program itself writes: who and when, and the message.

ghost use Rattle.std.specs.Prelude.{◌≡◌, ◌≢◌, ◌++◌, ℕ, List, codes, IfOk};
ghost use Rattle.object_making.specs.Texts.{author_of, commit_pair, commit_rest, parents_of};

use git_object::{Commit, Ids, Kind, Object, ObjectId};
use itoa::Buffer;
use octets::{Memory, Octets};
use std::alloc::Global;

/// Who writes a commit, and when: `gittuf <gittuf@localhost>`, so many seconds since the beginning of 1970 (UTC).
#[tactic(auto, unfolding(crate::specs::Texts::author_of))]
pub fn author_text(alloc: Global, seconds: u64) -> Result<Octets, Memory>
    ensures { IfOk result (λ text. text ≡ author_of seconds) }
{
    let mut digits = Buffer::new();
    let mut text = Octets::from_slice(alloc, b"gittuf <gittuf@localhost> ")?;
    text.append(digits.format(seconds).as_bytes())?;
    text.append(b" +0000")?;
    Ok(text)
}

// What stands in the commit after its tree and its parent.
#[tactic(auto, unfolding(crate::specs::Texts::commit_rest))]
fn commit_rest(alloc: Global, author: &[u8], message: &[u8]) -> Result<Octets, Memory>
    ensures { IfOk result (λ rest. rest ≡ commit_rest author.now message.now) }
{
    let mut rest = Octets::from_slice(alloc, b"author ")?;
    rest.append(author)?;
    rest.append(b"\ncommitter ")?;
    rest.append(author)?;
    rest.append(b"\n\n")?;
    rest.append(message)?;
    Ok(rest)
}

fn parents_of(alloc: Global, parent: Option<ObjectId>) -> Result<Ids, Memory>
    ensures { IfOk result (λ parents. parents ≡ parents_of parent) }
{
    let mut parents = Ids::new(alloc);
    if let Some(id) = parent {
        parents.push(id)?;
    }
    Ok(parents)
}

/// The commit of a tree after one parent or none, with this message, which Git wants to end in a line feed. Author and
/// committer are `gittuf <gittuf@localhost>`, at so many seconds since the beginning of 1970 (UTC).
#[tactic(auto, unfolding(crate::specs::Texts::commit_rest))]
pub fn commit_object(
    alloc: Global,
    tree: ObjectId,
    parent: Option<ObjectId>,
    seconds: u64,
    message: &[u8],
) -> Result<Object, Memory>
    ensures { IfOk result (λ object. object ≡ commit_pair tree parent seconds message.now) }
{
    let author = author_text(alloc, seconds)?;
    let commit = Commit {
        tree,
        parents: parents_of(alloc, parent)?,
        rest: commit_rest(alloc, author.as_slice(), message)?,
    };
    let body = commit.write(alloc)?;
    Object::new(alloc, Kind::Commit, body)
}
