//! The trees of a demonstration.

ghost use Rattle.std.specs.Prelude.{◌≡◌, ◌++◌, ◌∷◌, [], IfOk, OnOk, codes};
ghost use Rattle.git_object.specs.EntryParts.{entry_of};
ghost use Rattle.git_object.specs.Objects.{pair_id};
ghost use Rattle.git_object.specs.Trees.{AreWellFormed};
ghost use Rattle.git_object.specs.declared.modes.Mode.TheVariants as mode;
ghost use Rattle.demo.specs.Trees.{file_name, number_file, root_entries, tree_pair, writes_key};

use git_object::{Kind, Mode, Object, ObjectId, Objects, Tree, TreeEntries, TreeEntry};
use itoa::Buffer;
use octets::{Memory, Octets};
use std::alloc::Global;

/// Adds an object at the end, and answers its id.
pub fn keep(objects: &mut Objects, object: Object) -> Result<ObjectId, Memory>
    ensures kept { OnOk result (objects.new ≡ objects.old ++ object ∷ []) }
    ensures id { IfOk result (λ id. id ≡ pair_id object) }
{
    let id = object.id();
    objects.push(object)?;
    Ok(id)
}

/// The tree of these entries as an object.
pub fn tree_object(alloc: Global, tree: &Tree) -> Result<Object, Memory>
    requires { AreWellFormed tree.now.entries }
    ensures { IfOk result (λ object. object ≡ tree_pair tree.now.entries) }
{
    let body = tree.write(alloc)?;
    Object::new(alloc, Kind::Tree, body)
}

/// An entry of this mode, name and id.
pub fn entry_of(alloc: Global, mode: Mode, name: &[u8], id: ObjectId) -> Result<TreeEntry, Memory>
    ensures { IfOk result (λ entry. entry ≡ entry_of mode name.now id) }
{
    Ok(TreeEntry {
        mode,
        name: Octets::from_slice(alloc, name)?,
        id,
    })
}

/// A tree of one entry.
pub fn single(alloc: Global, mode: Mode, name: &[u8], id: ObjectId) -> Result<Tree, Memory>
    ensures { IfOk result (λ tree. tree.entries ≡ entry_of mode name.now id ∷ []) }
{
    let mut entries = TreeEntries::new(alloc);
    entries.push(entry_of(alloc, mode, name, id)?)?;
    Ok(Tree { entries })
}

/// A file that holds a number in decimal.
pub fn number_file(alloc: Global, number: u64) -> Result<Object, Memory>
    ensures { IfOk result (λ object. object ≡ number_file number) }
{
    let mut digits = Buffer::new();
    let body = Octets::from_slice(alloc, digits.format(number).as_bytes())?;
    Object::new(alloc, Kind::Blob, body)
}

/// The name of the file below src/ into which a change writes.
pub fn file_name(alloc: Global, number: u64) -> Result<Octets, Memory>
    ensures { IfOk result (λ name. name ≡ file_name number) }
{
    let mut digits = Buffer::new();
    let mut name = Octets::from_slice(alloc, b"f")?;
    name.append(digits.format(number % 64).as_bytes())?;
    Ok(name)
}

/// Whether a change writes into keys/k too.
pub fn writes_key(number: u64) -> bool
    ensures { result ≡ writes_key number }
{
    number % 30 == 10
}

/// The tree of keys/ where the file k has this id.
pub fn keys_tree(alloc: Global, file: ObjectId) -> Result<Object, Memory>
    ensures { IfOk result (λ object. object ≡ tree_pair (entry_of mode.File (codes "k") file ∷ [])) }
{
    tree_object(alloc, &single(alloc, Mode::File, b"k", file)?)
}

// The entries of the root.
fn root_entries(
    alloc: Global,
    keys: &Option<ObjectId>,
    src: ObjectId,
) -> Result<TreeEntries, Memory>
    ensures { IfOk result (λ entries. entries ≡ root_entries keys.now src) }
{
    let mut entries = TreeEntries::new(alloc);
    if let Some(id) = keys {
        entries.push(entry_of(alloc, Mode::Dir, b"keys", *id)?)?;
    }
    entries.push(entry_of(alloc, Mode::Dir, b"src", src)?)?;
    Ok(entries)
}

/// The root, of the trees of keys/, where there is one, and of src/.
pub fn root_tree(alloc: Global, keys: &Option<ObjectId>, src: ObjectId) -> Result<Object, Memory>
    ensures { IfOk result (λ object. object ≡ tree_pair (root_entries keys.now src)) }
{
    let tree = Tree {
        entries: root_entries(alloc, keys, src)?,
    };
    tree_object(alloc, &tree)
}
