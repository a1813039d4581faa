//! What the names in folders are the names of.

ghost use Rattle.std.specs.Prelude.{◌≡◌, ◌++◌, ◌∷◌, [], ℕ, List, IfOk, IfSome, IfNone, OnOk};
ghost use Rattle.hex.specs.Hex.{encode_lower};
ghost use Rattle.text_reader.specs.Hexadecimal.{IsLowerHexadecimal};
ghost use Rattle.git_object.specs.Names.{IsRefName};

use crate::file_calls::{Stand, read_names, what_stands};
use crate::file_faults::FileFault;
use crate::places::FolderPaths;
use git_object::{Memory, ObjectId, RefFault, RefName};
use std::alloc::Global;
use std::rt::Files;
use std::str;
use text_reader::split_at_zero;

/// Reference names that were found, and folders that are still to be looked into.
#[derive(Drop)]
pub struct Found {
    pub folders: Vec<String>,
    pub names: Vec<RefName>,
}

impl Found {
    /// Nothing found, and one folder to look into.
    pub fn at(alloc: Global, folder: &str) -> Result<Found, Memory> {
        let mut folders = Vec::new(alloc);
        folders.push(String::from_str(alloc, folder)?)?;
        Ok(Found {
            folders,
            names: Vec::new(alloc),
        })
    }
}

// Notes the id whose digits a name is, and passes over any other name.
fn note_id(ids: &mut Vec<ObjectId>, name: &[u8]) -> Result<(), Memory>
    ensures noted { OnOk result (IsLowerHexadecimal 32 name.now → (id : List ℕ) × (encode_lower id ≡ name.now)
        × (ids.new.items ≡ ids.old.items ++ id ∷ [])) }
    ensures passed { OnOk result ((IsLowerHexadecimal 32 name.now → ⊥) → ids.new.items ≡ ids.old.items) }
{
    match ObjectId::from_hex(name) {
        Some(id) => {
            ids.push(id)?;
        }
        None => {}
    }
    Ok(())
}

/// The ids whose digits are one of the names, which are each followed by a zero byte.
pub fn ids_among(alloc: Global, names: &[u8]) -> Result<Vec<ObjectId>, Memory> {
    let mut ids = Vec::new(alloc);
    let mut rest = names;
    'names: while let Some((name, more)) = split_at_zero(rest) {
        note_id(&mut ids, name)?;
        rest = more;
    }
    Ok(ids)
}

// The name that a text is, or None where it is none.
fn name_of(alloc: Global, text: &str) -> Result<Option<RefName>, Memory>
    ensures found { IfOk result (λ found. IfSome found (λ name. name ≡ text.now)) }
    ensures none { IfOk result (λ found. IfNone found (IsRefName text.now → ⊥)) }
{
    match RefName::read(alloc, text.as_bytes()) {
        Ok(name) => Ok(Some(name)),
        Err(RefFault::BadRef) => Ok(None),
        Err(RefFault::Memory) => Err(Memory),
    }
}

// Whether reference names may begin with the name of a folder: whether one of a single letter more would be one.
fn may_hold_names(alloc: Global, folder: &str) -> Result<bool, Memory> {
    let mut path = String::from_str(alloc, folder)?;
    path.push_str("/x")?;
    Ok(name_of(alloc, path.as_str())?.is_some())
}

/// Looks into a folder, and notes the reference names that files in it have, and the folders in it that may hold
/// more.
pub fn look_into<R: Files>(
    rt: &R,
    alloc: Global,
    places: &mut FolderPaths,
    folder: &str,
    found: &mut Found,
) -> Result<(), FileFault> {
    places.point_at(folder, "/")?;
    let names = match read_names(rt, alloc, places.place()) {
        Ok(names) => names,
        Err(FileFault::Missing) => return Ok(()),
        Err(fault) => return Err(fault),
    };
    let mut rest = names.as_slice();
    'names: while let Some((name, more)) = split_at_zero(rest) {
        if let Ok(name) = str::from_utf8(name) {
            look_at(rt, alloc, places, path_of(alloc, folder, name)?, found)?;
        }
        rest = more;
    }
    Ok(())
}

fn path_of(alloc: Global, folder: &str, name: &str) -> Result<String, Memory> {
    let mut path = String::from_str(alloc, folder)?;
    path.push('/')?;
    path.push_str(name)?;
    Ok(path)
}

// Notes what stands at a path below the folder, where it may be or hold a reference.
fn look_at<R: Files>(
    rt: &R,
    alloc: Global,
    places: &mut FolderPaths,
    path: String,
    found: &mut Found,
) -> Result<(), FileFault> {
    let name = name_of(alloc, path.as_str())?;
    let may_hold = may_hold_names(alloc, path.as_str())?;
    if name.is_none() && !may_hold {
        return Ok(());
    }
    places.point_at("", path.as_str())?;
    match what_stands(rt, places.place())? {
        Stand::Folder => {
            if may_hold {
                found.folders.push(path)?;
            }
        }
        Stand::File => {
            if let Some(name) = name {
                found.names.push(name)?;
            }
        }
        Stand::Nothing => {}
        Stand::Other => return Err(FileFault::Failed),
    }
    Ok(())
}
