//! Which folders may be a store's.

ghost use Rattle.std.specs.Prelude.{◌↔◌, ℕ, List, IsTrue};
ghost use Rattle.keeper_directory.specs.Stores.{AreDots, HasBegun, IsDots, IsFree, IsListing, IsMark, IsOneOf};
ghost use Rattle.keeper_directory.specs.Stores.{MayBeKept, MayBeMended};

use text_reader::{same_bytes, split_at_zero};

// Whether one of the names, which are each followed by a zero byte, is this one.
fn is_among(names: &[u8], wanted: &[u8]) -> bool
    ensures { (list : List (List ℕ)) → IsListing list names.now → IsTrue result ↔ IsOneOf wanted.now list }
{
    let mut rest = names;
    'names: while let Some((name, more)) = split_at_zero(rest) {
        if same_bytes(name, wanted) {
            return true;
        }
        rest = more;
    }
    false
}

// Whether a name is that of a folder itself, of the one above it, or of a mark.
fn is_dots(name: &[u8]) -> bool
    ensures { IsTrue result ↔ IsDots name.now }
{
    same_bytes(name, b".") || same_bytes(name, b"..") || is_mark(name)
}

fn is_mark(name: &[u8]) -> bool
    ensures { IsTrue result ↔ IsMark name.now }
{
    same_bytes(name, b"open.lock")
        || same_bytes(name, b"commit.lock")
        || same_bytes(name, b"commit.new")
}

// Whether the only names are such.
fn is_empty(names: &[u8]) -> bool
    ensures { (list : List (List ℕ)) → IsListing list names.now → IsTrue result ↔ AreDots list }
{
    let mut rest = names;
    'names: while let Some((name, more)) = split_at_zero(rest) {
        if !is_dots(name) {
            return false;
        }
        rest = more;
    }
    true
}

/// Whether the names in a folder, each followed by a zero byte, are those of one that may be a keeper's, where a change
/// that is not whole is mended: Git does not keep a repository of its own there, and it has one of the keeper's two
/// folders or nothing but marks.
pub fn may_be_mended(names: &[u8]) -> bool
    ensures { (list : List (List ℕ)) → IsListing list names.now → IsTrue result ↔ MayBeMended list }
{
    if is_among(names, b"HEAD") && is_among(names, b"config") {
        return false;
    }
    is_empty(names) || is_among(names, b"objects") || is_among(names, b"refs")
}

/// Whether a folder with these names may be a keeper's, and no change is being made in it or was left half made.
pub fn may_be_kept(names: &[u8]) -> bool
    ensures { (list : List (List ℕ)) → IsListing list names.now → IsTrue result ↔ MayBeKept list }
{
    if is_among(names, b"commit.lock") {
        return false;
    }
    may_be_mended(names)
}

/// Whether among the names in a folder, each followed by a zero byte, there is the mark of a change.
pub fn has_begun(names: &[u8]) -> bool
    ensures { (list : List (List ℕ)) → IsListing list names.now → IsTrue result ↔ HasBegun list }
{
    is_among(names, b"commit.lock")
}

/// Whether among the names in a folder, each followed by a zero byte, there is no mark of a call that may change it.
pub fn is_free(names: &[u8]) -> bool
    ensures { (list : List (List ℕ)) → IsListing list names.now → IsTrue result ↔ IsFree list }
{
    !is_among(names, b"open.lock")
}
