//! The two words in front of a command's: the store and the key file.

ghost use Rattle.std.specs.Prelude.{◌≡◌, ◌≢◌, ◌↔◌, map, string_bytes, IfSome, IfNone, IsTrue};
ghost use Rattle.command_words.specs.Places.{AreNoPlaces, ArePlaces, IsDatabase, IsFolder, IsKey, IsStore, key_text};
ghost use Rattle.command_words.specs.Places.{store_text};

use crate::first_words::{is_word, split_first};

/// Where the store is.
#[derive(Clone, Copy, Debug, PartialEq, Eq, Drop)]
pub enum Store<'a> {
    /// In memory, named `-`.
    Memory,
    /// In a folder, named by a text that ends in `/`.
    Directory(&'a str),
    /// In the database file at this path: a text that does not begin in `-` nor end in `/`, and is not empty.
    Database(&'a str),
}

/// Where the key file is.
#[derive(Clone, Copy, Debug, PartialEq, Eq, Drop)]
pub enum KeyPlace<'a> {
    /// In memory, named `-`.
    Memory,
    /// The file at this path.
    File(&'a str),
}

/// What stands in front of a command's words, and those words.
#[derive(Clone, Copy, Debug, Drop)]
pub struct FrontWords<'a> {
    pub store: Store<'a>,
    pub key: KeyPlace<'a>,
    pub command: &'a [String],
}

fn is_folder(text: &str) -> bool
    ensures { IsTrue result ↔ IsFolder text.now }
{
    text.as_bytes().ends_with(b"/")
}

fn is_database(text: &str) -> bool
    ensures { IsTrue result ↔ IsDatabase text.now }
{
    if text.is_empty() {
        return false;
    }
    if text.as_bytes().starts_with(b"-") {
        return false;
    }
    !is_folder(text)
}

/// The store that a text stands for; None where it stands for none.
pub fn store_at(text: &str) -> Option<Store>
    ensures found { IfSome result (λ store. (store_text store ≡ text.now) × IsStore store) }
    ensures none { IfNone result ((store : Store) → IsStore store → store_text store ≢ text.now) }
{
    if is_word(text, "-") {
        return Some(Store::Memory);
    }
    if is_folder(text) {
        return Some(Store::Directory(text));
    }
    if is_database(text) {
        return Some(Store::Database(text));
    }
    None
}

// The key file that a text stands for.
fn key_at(text: &str) -> KeyPlace
    ensures text { key_text result ≡ text.now }
    ensures is_key { IsKey result }
{
    if is_word(text, "-") {
        return KeyPlace::Memory;
    }
    KeyPlace::File(text)
}

/// The store and the key file that the first two words name, and the words after them, which may be none. None
/// exactly where there are no two words, or the first names no store.
pub fn after_places(words: &[String]) -> Option<FrontWords>
    ensures found { IfSome result (λ found. ArePlaces (map string_bytes words.now) found.store found.key
        (map string_bytes found.command.now)) }
    ensures none { IfNone result (AreNoPlaces (map string_bytes words.now)) }
{
    let (first, after_store) = split_first(words)?;
    let (key, command) = split_first(after_store)?;
    let store = store_at(first)?;
    Some(FrontWords {
        store,
        key: key_at(key),
        command,
    })
}
