//! A tree with one entry put in its place.

ghost use Rattle.std.specs.Prelude.{◌≡◌, ◌++◌, ◌∷◌, IfOk, OnOk};
ghost use Rattle.object_making.specs.Editing.{put_entry};

use git_object::{TreeEntries, TreeEntry};
use octets::Memory;
use std::alloc::Global;
use std::cmp::Ordering;
use tree_paths::compare_entries;

// What stands before an entry that is put among others, and what stands after it.
fn split_place<'a>(
    entries: &'a [TreeEntry],
    entry: &TreeEntry,
) -> (&'a [TreeEntry], &'a [TreeEntry])
    ensures { result.0.now ++ entry.now ∷ result.1.now ≡ put_entry entry.now entries.now }
{
    'entries: for i in 0..entries.len() {
        match compare_entries(entry, &entries[i]) {
            Ordering::Less => return entries.split_at(i),
            Ordering::Equal => return (&entries[..i], &entries[i + 1..]),
            Ordering::Greater => {}
        }
    }
    (entries, &[])
}

fn copy_entry(entry: &TreeEntry) -> Result<TreeEntry, Memory>
    ensures { IfOk result (λ copy. copy ≡ entry.now) }
{
    Ok(TreeEntry {
        mode: entry.mode,
        name: entry.name.copy()?,
        id: entry.id,
    })
}

// Adds copies at the end.
fn append(list: &mut TreeEntries, more: &[TreeEntry]) -> Result<(), Memory>
    ensures { OnOk result (list.new ≡ list.old ++ more.now) }
{
    'more: for entry in more {
        list.push(copy_entry(entry)?)?;
    }
    Ok(())
}

/// The entries with one put in its place in Git's order, also where one of its key stands there already.
pub fn put_entry(
    alloc: Global,
    entries: &[TreeEntry],
    entry: TreeEntry,
) -> Result<TreeEntries, Memory>
    ensures { IfOk result (λ list. list ≡ put_entry entry entries.now) }
{
    let (front, rest) = split_place(entries, &entry);
    let mut list = TreeEntries::new(alloc);
    append(&mut list, front)?;
    list.push(entry)?;
    append(&mut list, rest)?;
    Ok(list)
}
