//! Which files a policy has, in the order in which they are gone through.

ghost use Rattle.std.specs.Prelude.{◌≡◌, ◌++◌, [], map, IfOk, OnOk};
ghost use Rattle.std.specs.List.{find};
ghost use Rattle.std.specs.Option.{option_copied};
ghost use Rattle.tree_paths.specs.Walks.{is_dir};
ghost use Rattle.policy_reading.specs.Metadata.{file_at, is_below_top, is_called, is_file, is_metadata, is_other};
ghost use Rattle.policy_reading.specs.Metadata.{is_policy_file, put_file, put_files, rule_files, stem_of, top_file};

use git_object::{Mode, ObjectId, TreeEntry};
use octets::{Items, Memory, Octets};
use std::alloc::Global;
use std::collections::BTreeMap;

/// A file of a policy: its name without `.json`, and the id of its object.
#[derive(Drop)]
pub struct FileAt {
    pub stem: Octets,
    pub id: ObjectId,
}

/// Files of a policy.
pub type FilesAt = Items<FileAt>;

// The files that were found, by their stems.
type Found = BTreeMap<Octets, ObjectId>;

fn is_dir(mode: Mode) -> bool
    ensures { result ≡ is_dir mode }
{
    match mode {
        Mode::Dir => true,
        Mode::File | Mode::Exec | Mode::Link | Mode::Module => false,
    }
}

fn is_file(mode: Mode) -> bool
    ensures { result ≡ is_file mode }
{
    match mode {
        Mode::File | Mode::Exec => true,
        Mode::Dir | Mode::Link | Mode::Module => false,
    }
}

fn is_metadata(entry: &TreeEntry) -> bool
    ensures { result ≡ is_metadata entry.now }
{
    is_dir(entry.mode) && entry.name.as_slice() == b"metadata".as_slice()
}

/// The directory `metadata` among the entries of a tree.
pub fn find_metadata(entries: &[TreeEntry]) -> Option<&TreeEntry>
    ensures { option_copied result ≡ find is_metadata entries.now }
{
    entries.iter().find(|entry| is_metadata(entry))
}

fn is_policy_file(entry: &TreeEntry) -> bool
    ensures value { result ≡ is_policy_file entry.now }
{
    is_file(entry.mode) && entry.name.as_slice().ends_with(b".json")
}

// A name without its last five bytes.
fn stem_of(name: &[u8]) -> &[u8]
    ensures { result.now ≡ stem_of name.now }
{
    if name.len() < 5 {
        return &name[..0];
    }
    &name[..name.len() - 5]
}

fn is_called(stem: &[u8], entry: &TreeEntry) -> bool
    ensures { result ≡ is_called stem.now entry.now }
{
    is_policy_file(entry) && stem_of(entry.name.as_slice()) == stem
}

/// The policy's file of this stem among the entries of the directory.
pub fn find_called<'e>(entries: &'e [TreeEntry], stem: &[u8]) -> Option<&'e TreeEntry>
    ensures { option_copied result ≡ find (is_called stem.now) entries.now }
{
    entries.iter().find(|entry| is_called(stem, entry))
}

// Whether a stem is neither the root's nor the top file's.
fn is_other(stem: &[u8]) -> bool
    ensures { result ≡ is_other stem.now }
{
    stem != b"root".as_slice() && stem != b"targets".as_slice()
}

fn is_below_top(entry: &TreeEntry) -> bool
    ensures { result ≡ is_below_top entry.now }
{
    is_policy_file(entry) && is_other(stem_of(entry.name.as_slice()))
}

// Puts the entry among the found, if it is a file below the top.
fn put_file(alloc: Global, found: &mut Found, entry: &TreeEntry) -> Result<(), Memory>
    ensures { OnOk result (found.new.entries ≡ put_file found.old.entries entry.now) }
{
    if !is_below_top(entry) {
        return Ok(());
    }
    let stem = Octets::from_slice(alloc, stem_of(entry.name.as_slice()))?;
    let _had = found.insert(stem, entry.id)?;
    Ok(())
}

// The files below the top, by their stems.
fn put_files(alloc: Global, entries: &[TreeEntry]) -> Result<Found, Memory>
    ensures { IfOk result (λ found. found.entries ≡ put_files [] entries.now) }
{
    let mut found = BTreeMap::new(alloc);
    'entries: for entry in entries {
        put_file(alloc, &mut found, entry)?;
    }
    Ok(found)
}

// Adds what was found, in the order of the stems.
fn add_found(files: &mut FilesAt, found: Found) -> Result<(), Memory>
    ensures { OnOk result (files.new ≡ files.old ++ map file_at found.entries) }
{
    'found: for (stem, id) in found {
        files.push(FileAt { stem, id })?;
    }
    Ok(())
}

// The top file alone, where it is there.
fn top_file(alloc: Global, entries: &[TreeEntry]) -> Result<FilesAt, Memory>
    ensures { IfOk result (λ files. files ≡ top_file entries.now) }
{
    let mut files = FilesAt::new(alloc);
    match find_called(entries, b"targets") {
        None => Ok(files),
        Some(entry) => {
            let stem = Octets::from_slice(alloc, b"targets")?;
            files.push(FileAt { stem, id: entry.id })?;
            Ok(files)
        }
    }
}

/// The rule files among the entries of the directory: the top file, where it is there, and then the others by their
/// stems.
#[tactic(auto, unfolding(crate::specs::Metadata::rule_files))]
pub fn rule_files(alloc: Global, entries: &[TreeEntry]) -> Result<FilesAt, Memory>
    ensures { IfOk result (λ files. files ≡ rule_files entries.now) }
{
    let mut files = top_file(alloc, entries)?;
    let found = put_files(alloc, entries)?;
    add_found(&mut files, found)?;
    Ok(files)
}
