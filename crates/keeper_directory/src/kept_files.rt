//! Reading the files of a folder.

ghost use Rattle.std.specs.Prelude.{◌≡◌};

use crate::file_calls::{Stand, open_file, read_names, what_stands};
use crate::file_faults::FileFault;
use crate::folders::Folder;
use crate::key_sets::keys_after;
use crate::listings::{Found, ids_among, look_into};
use crate::object_files::read_object;
use crate::ref_files::{name_text, read_id};
use crate::ref_plans::RefPlan;
use git_object::{Object, ObjectId, RefName};
use keeper_api::RefValue;
use octets::Copied;
use std::alloc::Global;
use std::collections::{BTreeMap, BTreeSet};
use std::fs::File;
use std::rt::Files;

impl<R: Files<File = File>> Folder<R> {
    /// What stands at a path above the file of a name and is no folder, or else Folder.
    pub fn look_above(&mut self, name: &str) -> Result<Stand, FileFault>
        ensures { self.new.hold ≡ self.old.hold }
    {
        for place in 1..name.len() {
            if let Some((above, rest)) = name.split_at_checked(place) {
                if rest.starts_with('/') {
                    self.places.point_at("", above)?;
                    let stands = what_stands(&self.rt, self.places.place())?;
                    if stands != Stand::Folder {
                        return Ok(stands);
                    }
                }
            }
        }
        Ok(Stand::Folder)
    }

    /// The object in the file of an id, or None where there is no such file.
    pub fn read_object(
        &mut self,
        alloc: Global,
        id: &ObjectId,
    ) -> Result<Option<Object>, FileFault> {
        self.places.point_at_object(id)?;
        match open_file(&self.rt, self.places.place()) {
            Ok(file) => match read_object(alloc, file)? {
                Some(object) => Ok(Some(object)),
                None => Err(FileFault::Failed),
            },
            Err(FileFault::Missing) => Ok(None),
            Err(fault) => Err(fault),
        }
    }

    /// Whether the file of an id has the object of this id.
    pub fn is_whole(&mut self, alloc: Global, id: &ObjectId) -> Result<bool, FileFault>
        ensures { self.new.hold ≡ self.old.hold }
    {
        self.places.point_at_object(id)?;
        match open_file(&self.rt, self.places.place()) {
            Ok(file) => match read_object(alloc, file)? {
                Some(object) => Ok(object.id() == *id),
                None => Ok(false),
            },
            Err(FileFault::Missing) => Ok(false),
            Err(fault) => Err(fault),
        }
    }

    /// The id in the file of a reference, or None where no file stands there.
    pub fn read_ref(&mut self, alloc: Global, name: &RefName) -> Result<Option<ObjectId>, FileFault>
        ensures { self.new.hold ≡ self.old.hold }
    {
        let name = name_text(name);
        match self.look_above(name)? {
            Stand::Folder => {}
            Stand::Nothing | Stand::File => return Ok(None),
            Stand::Other => return Err(FileFault::Failed),
        }
        self.places.point_at("", name)?;
        match self.read_place(alloc) {
            Ok(id) => Ok(Some(id)),
            Err(FileFault::Missing | FileFault::IsFolder) => Ok(None),
            Err(fault) => Err(fault),
        }
    }

    /// The part of a plan that is not so yet. A reference whose file is of another form is not.
    pub fn needed(&mut self, alloc: Global, asked: &RefPlan) -> Result<RefPlan, FileFault>
        ensures { self.new.hold ≡ self.old.hold }
    {
        let mut plan = BTreeMap::new(alloc);
        'names: for (name, to) in asked {
            let is_so = match self.read_ref(alloc, name) {
                Ok(id) => id == *to,
                Err(FileFault::Memory) => return Err(FileFault::Memory),
                Err(_) => false,
            };
            if !is_so {
                plan.insert(name.copied()?, *to)?;
            }
        }
        Ok(plan)
    }

    // The id in the file that was taken last.
    fn read_place(&self, alloc: Global) -> Result<ObjectId, FileFault> {
        let mut file = open_file(&self.rt, self.places.place())?;
        match read_id(alloc, &mut file)? {
            Some(id) => Ok(id),
            None => Err(FileFault::Failed),
        }
    }

    /// The first of these references after a name that has a file still, with its id.
    pub fn first_ref(
        &mut self,
        alloc: Global,
        names: &BTreeSet<RefName>,
        after: Option<&RefName>,
    ) -> Result<Option<RefValue>, FileFault> {
        for name in keys_after(names, after) {
            if let Some(id) = self.read_ref(alloc, name)? {
                let name = name.copied()?;
                return Ok(Some(RefValue { name, id }));
            }
        }
        Ok(None)
    }

    /// The ids that files in `objects` are named by.
    pub fn ids(&mut self, alloc: Global) -> Result<Vec<ObjectId>, FileFault> {
        self.places.point_at("objects/", "")?;
        match read_names(&self.rt, alloc, self.places.place()) {
            Ok(names) => Ok(ids_among(alloc, names.as_slice())?),
            Err(FileFault::Missing) => Ok(Vec::new(alloc)),
            Err(fault) => Err(fault),
        }
    }

    /// The reference names that files below `refs` are named by.
    pub fn names(&mut self, alloc: Global) -> Result<Vec<RefName>, FileFault>
        ensures { self.new.hold ≡ self.old.hold }
    {
        let mut found = Found::at(alloc, "refs")?;
        for _ in 0..u64::MAX {
            let Some(folder) = found.folders.pop() else {
                return Ok(found.names);
            };
            look_into(
                &self.rt,
                alloc,
                &mut self.places,
                folder.as_str(),
                &mut found,
            )?;
        }
        Err(FileFault::Failed)
    }
}
