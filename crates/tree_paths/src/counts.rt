//! What a walk counts, its limits, and how it ends.

ghost use Rattle.std.specs.Prelude.{◌≡◌, ◌≤◌, ◌<◌, ◌+◌, length, min, IfSome};
ghost use Rattle.git_object.specs.Trees.{sort_key};
ghost use Rattle.tree_paths.specs.Adding.{IsSum};
ghost use Rattle.tree_paths.specs.Walks.{is_dir, leaf, no_counts, one_dir};

use git_object::{Mode, ObjectId, TreeEntry};

/// The most levels of trees, the root's among them.
pub const MOST_LEVELS: u32 = 32;

/// The most paths of a state.
const MOST_PATHS: u32 = 262_144;

/// The most bytes of a path.
const LONGEST_PATH: usize = 4096;

/// The most bytes of all paths of a state together: 64 MiB.
const MOST_BYTES: usize = 67_108_864;

/// The most trees that a walk visits: each but the root holds a path, at most 32 levels below it.
const MOST_DIRS: u32 = 8_388_609;

// At which length a place is no longer counted on: no path is as long.
const LONG: usize = 8192;

/// How many paths were met, how many trees visited, and the bytes of the paths together.
#[derive(Clone, Copy, Debug, PartialEq, Eq)]
pub struct Counts {
    pub paths: u32,
    pub dirs: u32,
    pub bytes: usize,
}

/// How a walk ends: at the object of a bad step, or with its counts.
#[derive(Clone, Copy, Debug, PartialEq, Eq)]
pub enum Walked {
    Broken(ObjectId),
    Counted(Counts),
}

/// The counts of a walk that begins.
pub fn no_counts() -> Counts
    ensures { result ≡ no_counts }
{
    Counts {
        paths: 0,
        dirs: 0,
        bytes: 0,
    }
}

/// Whether the mode is a directory's.
pub fn is_dir(mode: Mode) -> bool
    ensures { result ≡ is_dir mode }
{
    match mode {
        Mode::Dir => true,
        Mode::File | Mode::Exec | Mode::Link | Mode::Module => false,
    }
}

/// One more visited tree.
pub fn count_dir(counts: Counts) -> Counts
    requires { counts.dirs < 4294967295 }
    ensures { result ≡ one_dir counts }
{
    Counts {
        paths: counts.paths,
        dirs: counts.dirs + 1,
        bytes: counts.bytes,
    }
}

/// One more path of so many bytes in a tree, if the limits have room for it.
pub fn count_path(holder: &ObjectId, counts: Counts, len: usize) -> Walked
    requires few { counts.paths ≤ 262144 }
    requires short { len ≤ 8192 }
    ensures { result ≡ leaf holder.now len counts }
{
    if counts.paths >= MOST_PATHS {
        return Walked::Broken(*holder);
    }
    if len > LONGEST_PATH {
        return Walked::Broken(*holder);
    }
    if counts.bytes > MOST_BYTES - len {
        return Walked::Broken(*holder);
    }
    Walked::Counted(Counts {
        paths: counts.paths + 1,
        dirs: counts.dirs,
        bytes: counts.bytes + len,
    })
}

/// Both counts together, if the limits have room for them.
pub fn add_counts(counts: Counts, more: Counts) -> Option<Counts>
    ensures { IfSome result (λ sum. IsSum counts more sum) }
{
    if counts.paths > MOST_PATHS || more.paths > MOST_PATHS - counts.paths {
        return None;
    }
    if counts.dirs > MOST_DIRS || more.dirs > MOST_DIRS - counts.dirs {
        return None;
    }
    if counts.bytes > MOST_BYTES || more.bytes > MOST_BYTES - counts.bytes {
        return None;
    }
    Some(Counts {
        paths: counts.paths + more.paths,
        dirs: counts.dirs + more.dirs,
        bytes: counts.bytes + more.bytes,
    })
}

/// What one path of so many bytes adds, if it is not too long.
pub fn one_path(len: usize) -> Option<Counts>
    ensures { IfSome result (λ adds. (adds.paths ≡ 1) × (adds.dirs ≡ 0) × (adds.bytes ≡ len) × (len ≤ 4096)) }
{
    if len > LONGEST_PATH {
        return None;
    }
    Some(Counts {
        paths: 1,
        dirs: 0,
        bytes: len,
    })
}

/// A length as it is counted on.
pub fn cut(len: usize) -> usize
    ensures { result ≡ min len 8192 }
{
    len.min(LONG)
}

/// The length of a place after that of what the entry names is added to it.
pub fn longer(len: usize, entry: &TreeEntry) -> usize
    requires { len ≤ 8192 }
    ensures { result ≡ min (len + length (sort_key entry.now)) 8192 }
{
    let named = len + entry.name.len().min(LONG - len);
    (named + entry.mode.key_end().len()).min(LONG)
}
