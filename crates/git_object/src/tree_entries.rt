//! The entries of a tree in front of a text, and their order.

ghost use Rattle.std.specs.Prelude.{◌≡◌, ◌≢◌, ◌++◌, ◌↔◌, ℕ, List, false, length, IfSome, IfNone, IsOk, IsTrue, OnOk};
ghost use Rattle.std.specs.List.{AllByRecursion};
ghost use Rattle.octets.specs.BytesMap.{by_bytes};
ghost use Rattle.text_reader.specs.Line.{has_byte};
ghost use Rattle.git_object.specs.Ids.{IsId};
ghost use Rattle.git_object.specs.Modes.{key_end};
ghost use Rattle.git_object.specs.Trees.{AreInOrder, IsEntryName, entries_text, entry_text, sort_key};
ghost use Rattle.git_object.specs.EntryParts.{AllLess, AllOther, AllPrecede, entry_of};
ghost use Rattle.git_object.specs.declared.trees.TreeEntry.{TreeEntry};

use crate::{Mode, ObjectId, TreeEntry};
use octets::{Memory, Octets};
use std::cmp::Ordering;
use text_reader::{same_bytes, split_at_zero, split_front};

/// An entry whose name is still part of a text.
#[derive(Clone, Copy)]
pub struct EntryParts<'a> {
    pub mode: Mode,
    pub name: &'a [u8],
    pub id: ObjectId,
}

// Whether the byte stands in the text.
fn holds_byte(text: &[u8], wanted: u8) -> bool
    ensures { result ≡ has_byte wanted text.now }
{
    text.iter().any(|byte| *byte == wanted)
}

/// Whether an entry may have the name.
pub fn is_entry_name(name: &[u8]) -> bool
    ensures { IsTrue result ↔ IsEntryName name.now }
{
    if name.is_empty() {
        return false;
    }
    if holds_byte(name, b'/') {
        return false;
    }
    if holds_byte(name, 0) {
        return false;
    }
    if same_bytes(name, b".") {
        return false;
    }
    if same_bytes(name, b"..") {
        return false;
    }
    if same_bytes(name, b".git") {
        return false;
    }
    true
}

// The 32 bytes of an id.
fn split_id_bytes(text: &[u8]) -> Option<(ObjectId, &[u8])>
    ensures found { IfSome result (λ parts. text.now ≡ parts.0 ++ parts.1.now) }
    ensures valid { IfSome result (λ parts. IsId parts.0) }
    ensures none { IfNone result ((id more : List ℕ) → IsId id → text.now ≢ id ++ more) }
{
    let Some((front, rest)) = split_front(text, 32) else {
        return None;
    };
    let mut bytes = [0; 32];
    bytes.copy_from_slice(front);
    Some((ObjectId(bytes), rest))
}

/// The entry that stands in front of the text, wherever its name belongs, and what follows it.
pub fn split_entry(text: &[u8]) -> Option<(EntryParts<'_>, &[u8])>
    ensures found { IfSome result (λ parts. text.now ≡ entry_text (entry_of parts.0.mode parts.0.name.now parts.0.id)
        ++ parts.1.now) }
    ensures named { IfSome result (λ parts. IsEntryName parts.0.name.now) }
    ensures valid { IfSome result (λ parts. IsId parts.0.id) }
    ensures none { IfNone result ((entry : TreeEntry) (more : List ℕ) → IsEntryName entry.name → IsId entry.id
        → text.now ≢ entry_text entry ++ more) }
{
    let Some((mode, after)) = Mode::split_front(text) else {
        return None;
    };
    let Some((name, last)) = split_at_zero(after) else {
        return None;
    };
    if !is_entry_name(name) {
        return None;
    }
    let Some(found) = split_id_bytes(last) else {
        return None;
    };
    let id = found.0;
    Some((EntryParts { mode, name, id }, found.1))
}

// How names are ordered in a tree: a directory's as if it ended in `/`.
fn compare_keys(left: &[u8], left_mode: Mode, right: &[u8], right_mode: Mode) -> Ordering
    ensures { result ≡ by_bytes (left.now ++ key_end left_mode) (right.now ++ key_end right_mode) }
{
    left.iter()
        .chain(left_mode.key_end())
        .cmp(right.iter().chain(right_mode.key_end()))
}

// How an entry is ordered against one of this name and mode.
fn compare_entry(earlier: &TreeEntry, name: &[u8], mode: Mode) -> Ordering
    ensures { result ≡ by_bytes (sort_key earlier.now) (name.now ++ key_end mode) }
{
    compare_keys(earlier.name.as_slice(), earlier.mode, name, mode)
}

// Whether the entry's key is greater than that of each entry, which are in order.
fn is_greater(entries: &[TreeEntry], entry: &EntryParts) -> bool
    requires { AreInOrder entries.now }
    ensures { IsTrue result ↔ AllLess entries.now (entry_of entry.now.mode entry.now.name.now entry.now.id) }
{
    match entries.last() {
        Some(last) => compare_entry(last, entry.name, entry.mode).is_lt(),
        None => true,
    }
}

// Whether no entry has the entry's name. The keys are all smaller than the entry's, so that an entry of the same
// name is no directory: its key is the name.
fn is_new(entries: &[TreeEntry], entry: &EntryParts) -> bool
    requires ordered { AreInOrder entries.now }
    requires less { AllLess entries.now (entry_of entry.now.mode entry.now.name.now entry.now.id) }
    requires plain { has_byte 47 entry.now.name.now ≡ false }
    ensures { IsTrue result ↔ AllOther entries.now (entry_of entry.now.mode entry.now.name.now entry.now.id) }
{
    let name = entry.name;
    match entries.binary_search_by(|earlier| compare_entry(earlier, name, Mode::File)) {
        Ok(_) => false,
        Err(_) => true,
    }
}

/// Whether each of these entries, which are in order, may stand before the entry.
pub fn comes_next(entries: &[TreeEntry], entry: &EntryParts) -> bool
    requires ordered { AreInOrder entries.now }
    requires named { IsEntryName entry.now.name.now }
    ensures { IsTrue result ↔ AllPrecede entries.now (entry_of entry.now.mode entry.now.name.now entry.now.id) }
{
    if !is_greater(entries, entry) {
        return false;
    }
    is_new(entries, entry)
}

// Adds an entry at the end.
fn append_entry(text: &mut Octets, entry: &TreeEntry) -> Result<(), Memory>
    ensures added { OnOk result (text.new ≡ text.old ++ entry_text entry.now) }
    ensures valid { IsId entry.now.id }
{
    let id = entry.id.as_bytes();
    text.append(entry.mode.text())?;
    text.append(b" ")?;
    text.append(entry.name.as_slice())?;
    text.append(&[0])?;
    text.append(id)?;
    Ok(())
}

/// Adds entries at the end. After a refusal a front of them may stand there.
pub fn append_entries(text: &mut Octets, entries: &[TreeEntry]) -> Result<(), Memory>
    ensures added { OnOk result (text.new ≡ text.old ++ entries_text entries.now) }
    ensures valid { OnOk result (AllByRecursion (λ entry. IsId entry.id) entries.now) }
    ensures free { length entries.now ≡ 0 → IsOk result }
{
    'entries: for entry in entries {
        append_entry(text, entry)?;
    }
    Ok(())
}
