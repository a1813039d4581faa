//! Taking away what was staged, and references.

use crate::file_calls::{remove_file, remove_folder};
use crate::file_faults::FileFault;
use crate::folders::Folder;
use crate::ref_files::name_text;
use crate::ref_plans::RefPlan;
use git_object::{ObjectId, RefName};
use std::fs::File;
use std::rt::Files;

// The folders above a reference's file that can be empty: a name has at most 16 components.
const MOST_FOLDERS: usize = 15;

// No file stood there: a folder is none of a change's.
fn unless_none(answer: Result<(), FileFault>) -> Result<(), FileFault> {
    match answer {
        Err(FileFault::Missing | FileFault::UnderFile | FileFault::IsFolder) => Ok(()),
        answer => answer,
    }
}

impl<R: Files<File = File>> Folder<R> {
    /// Takes away the file that was taken last, where there is one.
    pub fn remove_place(&self) -> Result<(), FileFault> {
        unless_none(remove_file(&self.rt, self.places.place()))
    }

    fn remove_temporary(&self) -> Result<(), FileFault> {
        unless_none(remove_file(&self.rt, self.places.temporary()))
    }

    /// Takes away the files beside the places of objects, and of references that are to be set.
    pub fn remove_staged(&mut self, ids: &[ObjectId], plan: &RefPlan) -> Result<(), FileFault> {
        for (name, to) in plan {
            if to.is_some() {
                self.places.point_at("", name_text(name))?;
                self.remove_temporary()?;
            }
        }
        for id in ids {
            self.places.point_at_object(id)?;
            self.remove_temporary()?;
        }
        Ok(())
    }

    /// Takes a reference away, and then the folders above it that became empty, so that the name of such a folder
    /// may be set.
    pub fn remove_ref(&mut self, name: &RefName) -> Result<(), FileFault> {
        let name = name_text(name);
        self.places.point_at("", name)?;
        self.remove_place()?;
        self.remove_empty_folders(name)
    }

    fn remove_empty_folders(&mut self, name: &str) -> Result<(), FileFault> {
        let mut below = name;
        for _ in 0..MOST_FOLDERS {
            let Some((folder, _)) = below.rsplit_once('/') else {
                return Ok(());
            };
            if folder == "refs" {
                return Ok(());
            }
            self.places.point_at("", folder)?;
            match remove_folder(&self.rt, self.places.place()) {
                Ok(()) => {}
                Err(FileFault::Missing) => {}
                Err(FileFault::Occupied | FileFault::UnderFile) => return Ok(()),
                Err(fault) => return Err(fault),
            }
            below = folder;
        }
        Ok(())
    }
}
