//! Which references are told of where none is named.

use accounts::JudgedLog;
use git_object::RefName;
use keeper_api::{Keeper, KeeperFault};
use octets::Memory;
use policy_changes::LogNames;
use std::alloc::Global;

/// The most references of a store that are looked at.
const MOST_REFS: usize = 1_000_000;

// Whether a name is that of a branch or a tag.
fn is_branch_or_tag(name: &RefName) -> bool {
    let text = name.text();
    text.starts_with(b"refs/heads/") || text.starts_with(b"refs/tags/")
}

// Adds a name, where it is that of a branch or a tag.
fn add_branch_or_tag(names: &mut LogNames, name: &RefName) -> Result<(), Memory> {
    if is_branch_or_tag(name) {
        names.add(name)
    } else {
        Ok(())
    }
}

// Adds the branches and the tags of the store, by rising name.
fn add_kept<R: Keeper>(
    alloc: Global,
    keeper: &mut R,
    names: &mut LogNames,
) -> Result<(), KeeperFault> {
    let mut last: Option<RefName> = None;
    for _ in 0..MOST_REFS {
        let found = match keeper.next_ref_after(alloc, last.as_ref()) {
            Ok(found) => found,
            Err(fault) => return Err(fault),
        };
        match found {
            Some(value) => {
                add_branch_or_tag(names, &value.name)?;
                last = Some(value.name);
            }
            None => return Ok(()),
        }
    }
    Ok(())
}

/// Each name that the log speaks of, in the order in which it does so first, and behind them the branches and the tags
/// of the store that it does not speak of, by rising name.
pub(crate) fn all_names<R: Keeper>(
    alloc: Global,
    judged: &JudgedLog,
    keeper: &mut R,
) -> Result<LogNames, KeeperFault> {
    let mut names = LogNames::new(alloc);
    for name in judged.names() {
        names.add(name)?;
    }
    match add_kept(alloc, keeper, &mut names) {
        Ok(()) => Ok(names),
        Err(fault) => Err(fault),
    }
}
