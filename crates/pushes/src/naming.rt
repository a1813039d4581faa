//! What an object names.

ghost use Rattle.std.specs.Prelude.{◌≡◌, IfOk};
ghost use Rattle.git_object.proofs.Totality.{commit_decided, tag_decided, tree_decided};
ghost use Rattle.pushes.specs.Naming.{entry_ids, ids_of_commit, ids_of_tag, ids_of_tree, is_followed, names_of};

use git_object::{Commit, Kind, Mode, Object, ObjectFault, ObjectId, Tag, Tree, TreeEntry};
use octets::Memory;
use std::alloc::Global;

fn is_followed(mode: Mode) -> bool
    ensures { result ≡ is_followed mode }
{
    match mode {
        Mode::Dir | Mode::File | Mode::Exec | Mode::Link => true,
        Mode::Module => false,
    }
}

fn entry_ids(alloc: Global, entries: &[TreeEntry]) -> Result<Vec<ObjectId>, Memory>
    ensures { IfOk result (λ ids. ids.items ≡ entry_ids entries.now) }
{
    let ids = entries
        .iter()
        .filter(|entry| is_followed(entry.mode))
        .map(|entry| entry.id)
        .collect(alloc)?;
    Ok(ids)
}

fn tree_ids(alloc: Global, body: &[u8]) -> Result<Vec<ObjectId>, Memory>
    ensures { IfOk result (λ ids. ids.items ≡ ids_of_tree body.now (tree_decided body.now)) }
{
    match Tree::read(alloc, body) {
        Ok(tree) => Ok(entry_ids(alloc, tree.entries.as_slice())?),
        Err(ObjectFault::Malformed { at: _ }) => Ok(Vec::new(alloc)),
        Err(ObjectFault::Memory) => Err(Memory),
    }
}

fn commit_ids(alloc: Global, body: &[u8]) -> Result<Vec<ObjectId>, Memory>
    ensures { IfOk result (λ ids. ids.items ≡ ids_of_commit body.now (commit_decided body.now)) }
{
    match Commit::read(alloc, body) {
        Ok(commit) => {
            let mut ids = Vec::new(alloc);
            ids.push(commit.tree)?;
            ids.extend_from_slice(commit.parents.as_slice())?;
            Ok(ids)
        }
        Err(ObjectFault::Malformed { at: _ }) => Ok(Vec::new(alloc)),
        Err(ObjectFault::Memory) => Err(Memory),
    }
}

fn tag_ids(alloc: Global, body: &[u8]) -> Result<Vec<ObjectId>, Memory>
    ensures { IfOk result (λ ids. ids.items ≡ ids_of_tag body.now (tag_decided body.now)) }
{
    match Tag::read(alloc, body) {
        Ok(tag) => {
            let mut ids = Vec::new(alloc);
            ids.push(tag.object)?;
            Ok(ids)
        }
        Err(ObjectFault::Malformed { at: _ }) => Ok(Vec::new(alloc)),
        Err(ObjectFault::Memory) => Err(Memory),
    }
}

/// The ids that an object names: a commit's tree and parents, a tree's entries but modules, a tag's object.
pub(crate) fn names_of(alloc: Global, object: &Object) -> Result<Vec<ObjectId>, Memory>
    ensures { IfOk result (λ ids. ids.items ≡ names_of object.now) }
{
    match object.kind() {
        Kind::Blob => Ok(Vec::new(alloc)),
        Kind::Tree => Ok(tree_ids(alloc, object.body())?),
        Kind::Commit => Ok(commit_ids(alloc, object.body())?),
        Kind::Tag => Ok(tag_ids(alloc, object.body())?),
    }
}
