//! The next place of two lists of entries that are gone through side by side.

ghost use Rattle.std.specs.Prelude.{◌≡◌, ◌++◌, IfNone, IfSome};
ghost use Rattle.std.specs.Option.{option_copied};
ghost use Rattle.octets.specs.BytesMap.{by_bytes};
ghost use Rattle.git_object.specs.Modes.{key_end};
ghost use Rattle.git_object.specs.Trees.{AreWellFormed, sort_key};
ghost use Rattle.tree_paths.specs.Places.{AreDone, IsNext};

use git_object::{Mode, TreeEntry};
use std::cmp::Ordering;

/// The entries that come first, those of one place, and what follows in each list.
#[derive(Drop)]
pub struct NextPlace<'a> {
    pub from: Option<&'a TreeEntry>,
    pub to: Option<&'a TreeEntry>,
    pub rest_from: &'a [TreeEntry],
    pub rest_to: &'a [TreeEntry],
}

// How the places of two names of these modes are ordered.
fn compare_keys(left: &[u8], left_mode: Mode, right: &[u8], right_mode: Mode) -> Ordering
    ensures { result ≡ by_bytes (left.now ++ key_end left_mode) (right.now ++ key_end right_mode) }
{
    left.iter()
        .chain(left_mode.key_end())
        .cmp(right.iter().chain(right_mode.key_end()))
}

/// How two entries are ordered in a tree.
pub fn compare_entries(left: &TreeEntry, right: &TreeEntry) -> Ordering
    ensures { result ≡ by_bytes (sort_key left.now) (sort_key right.now) }
{
    compare_keys(
        left.name.as_slice(),
        left.mode,
        right.name.as_slice(),
        right.mode,
    )
}

/// The next place of two lists of entries, each as a tree has them; None where both are empty.
pub fn next_place<'a>(from: &'a [TreeEntry], to: &'a [TreeEntry]) -> Option<NextPlace<'a>>
    requires formed_from { AreWellFormed from.now }
    requires formed_to { AreWellFormed to.now }
    ensures found { IfSome result (λ next. IsNext from.now to.now (option_copied next.from) (option_copied next.to)
        next.rest_from.now next.rest_to.now) }
    ensures none { IfNone result (AreDone from.now to.now) }
{
    let Some((first, more_from)) = from.split_first() else {
        let Some((second, more_to)) = to.split_first() else {
            return None;
        };
        return Some(NextPlace {
            from: None,
            to: Some(second),
            rest_from: from,
            rest_to: more_to,
        });
    };
    let Some((second, more_to)) = to.split_first() else {
        return Some(NextPlace {
            from: Some(first),
            to: None,
            rest_from: more_from,
            rest_to: to,
        });
    };
    match compare_entries(first, second) {
        Ordering::Less => Some(NextPlace {
            from: Some(first),
            to: None,
            rest_from: more_from,
            rest_to: to,
        }),
        Ordering::Equal => Some(NextPlace {
            from: Some(first),
            to: Some(second),
            rest_from: more_from,
            rest_to: more_to,
        }),
        Ordering::Greater => Some(NextPlace {
            from: None,
            to: Some(second),
            rest_from: from,
            rest_to: more_to,
        }),
    }
}
