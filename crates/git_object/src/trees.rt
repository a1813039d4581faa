//! Git's tree object.

ghost use Rattle.std.specs.Prelude.{◌≡◌, ◌↔◌, ◌++◌, ◌∷◌, [], length, IfOk, IfErr, IsErrOf, IsOk, IsTrue};

use crate::tree_entries::{EntryParts, append_entries, comes_next, is_entry_name, split_entry};
use crate::{Mode, ObjectFault, ObjectId};
use octets::{Items, Memory, Octets};
use std::alloc::Global;

/// An entry of a tree: what it names, the name, and the id of the object there.
#[derive(Drop)]
pub struct TreeEntry {
    pub mode: Mode,
    pub name: Octets,
    pub id: ObjectId,
}

impl TreeEntry {
    ghost use Rattle.git_object.specs.Trees.{IsEntryName};

    /// Whether an entry may have this name: not empty, without `/` and zero byte, and none of `.`, `..` and
    /// `.git`. It takes no memory.
    pub fn may_be_called(name: &[u8]) -> bool
        ensures { IsTrue result ↔ IsEntryName name.now }
    {
        is_entry_name(name)
    }
}

/// A list of a tree's entries.
pub type TreeEntries = Items<TreeEntry>;

/// A tree: its entries in Git's order.
#[derive(Drop)]
pub struct Tree {
    pub entries: TreeEntries,
}

impl Tree {
    ghost use Rattle.git_object.specs.Faults.{Refuses};
    ghost use Rattle.git_object.specs.EntryParts.{AllPrecede};
    ghost use Rattle.git_object.specs.Trees.{AreInOrder, AreWellFormed, HasFirstEntry, IsEntryName, IsTreeFault};
    ghost use Rattle.git_object.specs.Trees.{IsTreeText};

    /// The tree of a body: entries of mode, space, name, zero byte and 32 bytes of an id, sorted by name, a
    /// directory's compared as if it ended in `/` (Git's tree object). A name is not empty, stands once, holds no
    /// `/` and no zero byte, and is not `.`, `..` or `.git`. `Malformed` at the first byte of the first entry that
    /// breaks a rule or is cut. Memory is taken only once a first entry is read, so an empty body is always
    /// read, and one whose first entry is refused is never answered for want of memory.
    pub fn read(alloc: Global, body: &[u8]) -> Result<Tree, ObjectFault>
        ensures found { IfOk result (λ tree. IsTreeText tree body.now) }
        ensures bad { IfErr result (Refuses IsTreeFault body.now) }
        ensures begun { IsErrOf result ObjectFault.Memory → HasFirstEntry body.now }
    {
        let mut entries = TreeEntries::new(alloc);
        let mut rest = body;
        'entries: while !rest.is_empty() {
            let Some(found) = split_entry(rest) else {
                return Err(ObjectFault::Malformed {
                    at: body.len() - rest.len(),
                });
            };
            let parts = found.0;
            if !comes_next(entries.as_slice(), &parts) {
                return Err(ObjectFault::Malformed {
                    at: body.len() - rest.len(),
                });
            }
            let name = Octets::from_slice(alloc, parts.name)?;
            entries.push(TreeEntry {
                mode: parts.mode,
                name,
                id: parts.id,
            })?;
            rest = found.1;
        }
        Ok(Tree { entries })
    }

    /// Whether an entry may stand after those of the tree, which are well formed: it is well named, and it comes
    /// after the last in Git's order under a name of its own. It takes no memory.
    pub fn may_take(&self, entry: &TreeEntry) -> bool
        requires { AreWellFormed self.now.entries }
        ensures { IsTrue result ↔ AreWellFormed (self.now.entries ++ entry.now ∷ []) }
    {
        if !is_entry_name(entry.name.as_slice()) {
            return false;
        }
        self.comes_after(entry)
    }

    // Whether each entry of the tree may stand before this one.
    fn comes_after(&self, entry: &TreeEntry) -> bool
        requires ordered { AreInOrder self.now.entries }
        requires named { IsEntryName entry.now.name }
        ensures { IsTrue result ↔ AllPrecede self.now.entries entry.now }
    {
        let parts = EntryParts {
            mode: entry.mode,
            name: entry.name.as_slice(),
            id: entry.id,
        };
        comes_next(self.entries.as_slice(), &parts)
    }

    /// The body of the tree, whose entries must be well formed: `may_take` tells it of each in turn. An empty
    /// tree's takes no memory.
    pub fn write(&self, alloc: Global) -> Result<Octets, Memory>
        requires { AreWellFormed self.now.entries }
        ensures found { IfOk result (IsTreeText self.now) }
        ensures free { length self.now.entries ≡ 0 → IsOk result }
    {
        let mut text = Octets::new(alloc);
        append_entries(&mut text, self.entries.as_slice())?;
        Ok(text)
    }
}
