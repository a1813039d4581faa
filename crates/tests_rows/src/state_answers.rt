//! States of targets, changed paths and trees that are made, as texts.

use crate::lines::append_number;
use git_object::{Mode, ObjectId, Objects};
use keeper_api::{KeeperFault, MemKeeper};
use object_making::{Listed, make_trees};
use octets::{Items, Memory, Octets};
use std::alloc::Global;
use tree_paths::{Comparison, Paths, State, compare, state_of};

fn append_id(text: &mut Octets, word: &[u8], id: &ObjectId) -> Result<(), Memory> {
    text.append(word)?;
    text.append(&id.to_hex())
}

fn append_state(text: &mut Octets, state: State) -> Result<(), Memory> {
    match state {
        State::Absent => text.append(b"absent"),
        State::Broken { id } => append_id(text, b"broken ", &id),
        State::Whole { tree, paths, dirs } => {
            append_id(text, b"whole ", &tree)?;
            text.append(b" paths ")?;
            append_number(text, paths as u64)?;
            text.append(b" trees ")?;
            append_number(text, dirs as u64)
        }
    }
}

/// What a target leads to, and `fault` where the store fails.
pub fn state_text(
    alloc: Global,
    keeper: &mut MemKeeper,
    target: &ObjectId,
) -> Result<Octets, Memory> {
    let mut text = Octets::new(alloc);
    match state_of(alloc, keeper, target) {
        Ok(state) => append_state(&mut text, state)?,
        Err(KeeperFault::Failed) => text.append(b"fault")?,
        Err(KeeperFault::Memory) => return Err(Memory),
    }
    Ok(text)
}

fn append_paths(text: &mut Octets, paths: &Paths) -> Result<(), Memory> {
    for path in paths.as_slice() {
        text.push(b' ')?;
        text.append(path.as_slice())?;
    }
    Ok(())
}

/// The ids of both trees and the paths that differ, the first bad object of the two, or `fault` where the store fails.
pub fn changes_text(
    alloc: Global,
    keeper: &mut MemKeeper,
    from: &ObjectId,
    to: &ObjectId,
) -> Result<Octets, Memory> {
    let mut text = Octets::new(alloc);
    let compared = compare(alloc, keeper, from, to);
    match &compared {
        Ok(Comparison::Broken { id }) => append_id(&mut text, b"broken ", id)?,
        Ok(Comparison::Changed { from, to, paths }) => {
            append_id(&mut text, b"from ", from)?;
            append_id(&mut text, b" to ", to)?;
            append_paths(&mut text, paths)?;
        }
        Err(KeeperFault::Failed) => text.append(b"fault")?,
        Err(KeeperFault::Memory) => return Err(Memory),
    }
    Ok(text)
}

/// The tree of one listed path, whose object's id is zeros, and of how many objects it is made.
pub fn tree_text(alloc: Global, mode: Mode, path: &[u8]) -> Result<Octets, Memory> {
    let mut listing = Items::new(alloc);
    listing.push(Listed {
        path: Octets::from_slice(alloc, path)?,
        mode,
        id: ObjectId::zeros(),
    })?;
    let mut objects = Objects::new(alloc);
    let mut text = Octets::new(alloc);
    match make_trees(alloc, listing.as_slice(), &mut objects)? {
        Some(id) => {
            append_id(&mut text, b"tree ", &id)?;
            text.append(b" of ")?;
            append_number(&mut text, objects.len() as u64)?;
        }
        None => text.append(b"no-tree")?,
    }
    Ok(text)
}
