//! Git's commit object.

ghost use Rattle.std.specs.Prelude.{◌≡◌, ◌≢◌, ◌↔◌, ◌++◌, ℕ, List, codes, IfOk, IfErr, IsErrOf, IsTrue};
ghost use Rattle.git_object.specs.Ids.{IsId};
ghost use Rattle.git_object.specs.Commits.{HasParents, parent_line};

use crate::header_lines::{append_id_line, append_id_lines, split_id_line};
use crate::{Ids, ObjectFault, ObjectId};
use octets::{Memory, Octets};
use std::alloc::Global;
use text_reader::begins_with;

/// A commit: its tree, its parents in order, and the bytes that follow their lines. Author, committer,
/// signature, message and all else stand unread in `rest`.
#[derive(Drop)]
pub struct Commit {
    pub tree: ObjectId,
    pub parents: Ids,
    pub rest: Octets,
}

impl Commit {
    ghost use Rattle.git_object.specs.Faults.{Refuses};
    ghost use Rattle.git_object.specs.Commits.{IsCommit, IsCommitFault, IsCommitText};

    /// The commit of a body: `tree <id>` LF, any number of `parent <id>` LF, then any bytes (Git's commit
    /// object). `Malformed` where the first line is no tree's (at 0), or where directly after the lines of the
    /// tree and of parents a line begins with `parent ` and is no parent's (at that line).
    /// Memory is taken only for a commit, so no other body is answered for want of it.
    pub fn read(alloc: Global, body: &[u8]) -> Result<Commit, ObjectFault>
        ensures found { IfOk result (λ commit. IsCommitText commit body.now) }
        ensures bad { IfErr result (Refuses IsCommitFault body.now) }
        ensures formed { IsErrOf result ObjectFault.Memory → IsCommit body.now }
    {
        let Some(first) = split_id_line(body, b"tree ") else {
            return Err(ObjectFault::Malformed { at: 0 });
        };
        let tree = first.0;
        let end = after_parents(first.1);
        if begins_with(end, b"parent ") {
            return Err(ObjectFault::Malformed {
                at: body.len() - end.len(),
            });
        }
        let mut parents = Ids::new(alloc);
        let mut rest = first.1;
        'parents: while let Some(line) = split_id_line(rest, b"parent ") {
            parents.push(line.0)?;
            rest = line.1;
        }
        let rest = Octets::from_slice(alloc, rest)?;
        Ok(Commit {
            tree,
            parents,
            rest,
        })
    }

    /// Whether these bytes may follow the lines of the tree and of parents: they do not begin with `parent `. It
    /// takes no memory.
    pub fn may_end_in(rest: &[u8]) -> bool
        ensures { IsTrue result ↔ ((more : List ℕ) → rest.now ≢ codes "parent " ++ more) }
    {
        !begins_with(rest, b"parent ")
    }

    /// The body of the commit, whose `rest` must not begin with `parent `: `may_end_in` tells it.
    pub fn write(&self, alloc: Global) -> Result<Octets, Memory>
        requires { (more : List ℕ) → self.now.rest ≢ codes "parent " ++ more }
        ensures { IfOk result (IsCommitText self.now) }
    {
        let mut text = Octets::new(alloc);
        append_id_line(&mut text, b"tree ", &self.tree)?;
        append_id_lines(&mut text, b"parent ", self.parents.as_slice())?;
        text.append(self.rest.as_slice())?;
        Ok(text)
    }
}

// What follows the lines of parents that stand in front of the text.
fn after_parents(text: &[u8]) -> &[u8]
    ensures lines { HasParents text.now result.now }
    ensures last { (id more : List ℕ) → IsId id → result.now ≢ parent_line id ++ more }
{
    let mut rest = text;
    'parents: while let Some(line) = split_id_line(rest, b"parent ") {
        rest = line.1;
    }
    rest
}
