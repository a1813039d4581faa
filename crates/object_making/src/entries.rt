//! The entries of a tree that is made, one after the other, and the tree as an object.

ghost use Rattle.std.specs.Prelude.{◌≡◌, ◌++◌, ◌∷◌, ◌-◌, ◌≤◌, [], ℕ, List, map, true, false, Some, IfOk};
ghost use Rattle.git_object.specs.Trees.{AreWellFormed};
ghost use Rattle.git_object.specs.Objects.{Pair, pair_id};
ghost use Rattle.tree_paths.specs.Readings.{Trees};
ghost use Rattle.tree_paths.specs.Walks.{is_dir};
ghost use Rattle.object_making.specs.Keeping.{Adds, Keeps};
ghost use Rattle.object_making.specs.Listings.{entry_of};

use crate::listed::Listed;
use git_object::{Kind, Memory, Mode, Object, ObjectId, Objects, Octets, Tree, TreeEntry};
use std::alloc::Global;

fn is_dir(mode: Mode) -> bool
    ensures { result ≡ is_dir mode }
{
    match mode {
        Mode::Dir => true,
        Mode::File | Mode::Exec | Mode::Link | Mode::Module => false,
    }
}

/// Adds an entry of this mode, name and id at the end of a tree, and answers whether it may stand there. Where it may
/// not, the tree is as before.
pub fn push_entry(
    alloc: Global,
    tree: &mut Tree,
    mode: Mode,
    name: &[u8],
    id: ObjectId,
) -> Result<bool, Memory>
    requires { AreWellFormed tree.old.entries }
    ensures added { IfOk result (λ taken. taken ≡ true → tree.new.entries ≡ tree.old.entries
        ++ entry_of mode name.now id ∷ []) }
    ensures formed { AreWellFormed tree.new.entries }
    ensures refused { IfOk result (λ taken. taken ≡ false
        → AreWellFormed (tree.old.entries ++ entry_of mode name.now id ∷ []) → ⊥) }
{
    let entry = TreeEntry {
        mode,
        name: Octets::from_slice(alloc, name)?,
        id,
    };
    if !tree.may_take(&entry) {
        return Ok(false);
    }
    tree.entries.push(entry)?;
    Ok(true)
}

/// Adds what is listed at the end of a tree, under its last name, and answers whether it may stand there.
pub fn push_listed(
    alloc: Global,
    tree: &mut Tree,
    name: &[u8],
    listed: &Listed,
) -> Result<bool, Memory>
    requires { AreWellFormed tree.old.entries }
    ensures added { IfOk result (λ taken. taken ≡ true → tree.new.entries ≡ tree.old.entries
        ++ entry_of listed.now.mode name.now listed.now.id ∷ []) }
    ensures plain { IfOk result (λ taken. taken ≡ true → is_dir listed.now.mode ≡ false) }
    ensures formed { AreWellFormed tree.new.entries }
    ensures refused { IfOk result (λ taken. taken ≡ false → is_dir listed.now.mode ≡ false
        → AreWellFormed (tree.old.entries ++ entry_of listed.now.mode name.now listed.now.id ∷ []) → ⊥) }
{
    if is_dir(listed.mode) {
        return Ok(false);
    }
    push_entry(alloc, tree, listed.mode, name, listed.id)
}

/// Adds a tree at the end of the objects, and answers its id.
pub fn keep_tree(alloc: Global, tree: &Tree, objects: &mut Objects) -> Result<ObjectId, Memory>
    requires { AreWellFormed tree.now.entries }
    ensures kept { Adds objects.old objects.new }
    ensures one { IfOk result (λ id. map pair_id objects.new ≡ map pair_id objects.old ++ id ∷ []) }
    ensures made { IfOk result (λ id. (trees : Trees) → Keeps trees objects.new → trees id ≡ Some tree.now.entries) }
{
    let body = tree.write(alloc)?;
    let object = Object::new(alloc, Kind::Tree, body)?;
    let id = object.id();
    objects.push(object)?;
    Ok(id)
}
