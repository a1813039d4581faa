//! The paths of a folder's files.

ghost use Rattle.std.specs.Prelude.{◌≡◌, ◌++◌, codes, string_bytes, OnOk};
ghost use Rattle.hex.specs.Hex.{encode_lower};

use git_object::ObjectId;
use std::alloc::{AllocError, Global};
use std::str;

// The most bytes that the name of a file takes below the folder: a reference name, or `objects/` and 64 digits, and
// then `.lock`.
const LONGEST_NAME: usize = 260;

/// The path of a folder, and of a file in it under its own and under its temporary name. Room for both is taken when
/// it is made, so that no later call wants memory.
#[derive(Drop)]
pub struct FolderPaths {
    folder: String,
    place: String,
    temporary: String,
}

impl FolderPaths {
    /// The places in the folder of this path, which may end in a slash.
    pub fn of(alloc: Global, folder: &str) -> Result<FolderPaths, AllocError> {
        let room = folder.len().saturating_add(LONGEST_NAME + 1);
        let mut places = FolderPaths {
            folder: String::from_str(alloc, folder)?,
            place: String::with_capacity(alloc, room)?,
            temporary: String::with_capacity(alloc, room)?,
        };
        if !folder.ends_with('/') {
            places.folder.push('/')?;
        }
        Ok(places)
    }

    /// Takes the file whose name is the front and then the rest.
    pub fn point_at(&mut self, front: &str, rest: &str) -> Result<(), AllocError>
        ensures place { OnOk result (string_bytes self.new.place ≡ (string_bytes self.old.folder ++ front.now)
            ++ rest.now) }
        ensures temporary { OnOk result (string_bytes self.new.temporary ≡ string_bytes self.new.place ++ codes ".lock") }
        ensures folder { string_bytes self.new.folder ≡ string_bytes self.old.folder }
    {
        self.place.clear();
        self.place.push_str(self.folder.as_str())?;
        self.place.push_str(front)?;
        self.place.push_str(rest)?;
        self.temporary.clear();
        self.temporary.push_str(self.place.as_str())?;
        self.temporary.push_str(".lock")?;
        Ok(())
    }

    /// Takes the file of an object.
    pub fn point_at_object(&mut self, id: &ObjectId) -> Result<(), AllocError>
        ensures place { OnOk result (string_bytes self.new.place ≡ (string_bytes self.old.folder ++ codes "objects/")
            ++ encode_lower id.now) }
        ensures folder { string_bytes self.new.folder ≡ string_bytes self.old.folder }
    {
        let _ = id.as_bytes();
        let digits = id.to_hex();
        match str::from_utf8(&digits) {
            Ok(digits) => self.point_at("objects/", digits),
            Err(_) => unreachable!(),
        }
    }

    /// The folder's path with a slash at the end.
    pub fn folder(&self) -> &str
        ensures { result.now ≡ string_bytes self.now.folder }
    {
        self.folder.as_str()
    }

    /// The path of the file that was taken last.
    pub fn place(&self) -> &str
        ensures { result.now ≡ string_bytes self.now.place }
    {
        self.place.as_str()
    }

    /// The path of its temporary file: the same and `.lock`, which ends neither an id nor a reference name.
    pub fn temporary(&self) -> &str
        ensures { result.now ≡ string_bytes self.now.temporary }
    {
        self.temporary.as_str()
    }
}
