//! Making a change in a folder: all that needs room first, and then what cannot want any.

ghost use Rattle.std.specs.Prelude.{◌≡◌, IsErrOf, OnOk};

use crate::file_calls::{Stand, make_folder, remove_folder, rename, what_stands, write_new_file};
use crate::file_faults::FileFault;
use crate::folders::{Folder, Hold};
use crate::journals::Journal;
use crate::object_files::make_object_text;
use crate::ref_files::{append_ref_text, name_text};
use crate::ref_plans::{RefPlan, is_emptied};
use git_object::{Object, ObjectId, RefName};
use std::alloc::Global;
use std::collections::BTreeSet;
use std::fs::File;
use std::rt::Files;

impl<R: Files<File = File>> Folder<R> {
    /// Refuses a plan that cannot be made: where a link, a pipe or a device is in the place of a file or of a folder
    /// above it, or a folder that is not emptied. The names are those that are kept after it.
    pub fn expect_places(
        &mut self,
        names: &BTreeSet<RefName>,
        plan: &RefPlan,
    ) -> Result<(), FileFault>
        ensures { self.new.hold ≡ self.old.hold }
    {
        'names: for (name, to) in plan {
            let text = name_text(name);
            if self.look_above(text)? == Stand::Other {
                return Err(FileFault::Failed);
            }
            self.places.point_at("", text)?;
            let stands = what_stands(&self.rt, self.places.place())?;
            let may_stand = match stands {
                Stand::Nothing | Stand::File => true,
                Stand::Folder => to.is_none() || is_emptied(names, plan, name),
                Stand::Other => false,
            };
            if !may_stand || what_stands(&self.rt, self.places.temporary())? != Stand::Nothing {
                return Err(FileFault::Failed);
            }
        }
        Ok(())
    }

    /// Makes a change. Until it is whole the folder is no store. Where an object or what a reference is to say cannot
    /// be written, all is taken back that was. So want of memory, as the system may say it, is a fault once it began.
    pub fn write(
        &mut self,
        alloc: Global,
        objects: &[Object],
        plan: &RefPlan,
    ) -> Result<(), FileFault>
        ensures open { OnOk result (self.old.hold ≡ Hold.Open) }
        ensures whole { OnOk result (self.new.hold ≡ Hold.Open) }
        ensures memory { IsErrOf result FileFault.Memory → self.new.hold ≡ self.old.hold }
    {
        let journal = self.journal_of(alloc, objects, plan)?;
        let text = journal.to_text(alloc)?;
        let mut folders = Vec::new(alloc);
        self.begin(text.as_slice())?;
        let ids = journal.objects.as_slice();
        if self.stage(alloc, objects, ids, plan, &mut folders).is_err() {
            // Where this fails too the mark says what is left to be mended.
            let _ = self.take_back(ids, plan, &folders);
            return Err(FileFault::Failed);
        }
        let mut answer = self.place(alloc, plan);
        if answer.is_ok() {
            answer = self.finish();
        }
        match answer {
            Ok(()) => Ok(()),
            Err(_) => Err(FileFault::Failed),
        }
    }

    // The journal of a change: of its objects those that are not kept yet.
    fn journal_of(
        &mut self,
        alloc: Global,
        objects: &[Object],
        plan: &RefPlan,
    ) -> Result<Journal, FileFault>
        ensures { self.new.hold ≡ self.old.hold }
    {
        let mut journal = Journal::of_refs(alloc, plan)?;
        'objects: for object in objects {
            let id = object.id();
            if !self.is_whole(alloc, &id)? {
                journal.objects.push(id)?;
            }
        }
        Ok(journal)
    }

    // Writes the objects of these ids, and what each reference is to say beside its place, and notes the folders that
    // it makes.
    fn stage(
        &mut self,
        alloc: Global,
        objects: &[Object],
        ids: &[ObjectId],
        plan: &RefPlan,
        folders: &mut Vec<String>,
    ) -> Result<(), FileFault> {
        if !ids.is_empty() {
            self.places.point_at("", "objects")?;
            self.make_missing(alloc, folders)?;
        }
        let mut left = ids;
        for object in objects {
            if let Some((id, more)) = left.split_first() {
                if *id == object.id() {
                    self.write_object(object)?;
                    left = more;
                }
            }
        }
        for (name, to) in plan {
            if let Some(id) = to {
                self.stage_ref(alloc, name, id, folders)?;
            }
        }
        Ok(())
    }

    // Takes back what was staged, and then the mark.
    fn take_back(
        &mut self,
        ids: &[ObjectId],
        plan: &RefPlan,
        folders: &[String],
    ) -> Result<(), FileFault> {
        self.remove_staged(ids, plan)?;
        for id in ids {
            self.places.point_at_object(id)?;
            self.remove_place()?;
        }
        for folder in folders.iter().rev() {
            // Another program's file may be in it.
            let _ = remove_folder(&self.rt, folder.as_str());
        }
        self.close_change()
    }

    /// Puts references in their places: takes away those that go, and then gives each other one its new value, which
    /// may stand beside its place already.
    pub fn place(&mut self, alloc: Global, plan: &RefPlan) -> Result<(), FileFault> {
        for (name, to) in plan {
            if to.is_none() {
                self.remove_ref(name)?;
            }
        }
        for (name, to) in plan {
            if let Some(id) = to {
                self.place_ref(alloc, name, id)?;
            }
        }
        Ok(())
    }

    // Makes the folder that was taken last, where nothing is, and notes it.
    fn make_missing(&self, alloc: Global, folders: &mut Vec<String>) -> Result<(), FileFault> {
        match what_stands(&self.rt, self.places.place())? {
            Stand::Folder => Ok(()),
            Stand::Nothing => {
                folders.push(String::from_str(alloc, self.places.place())?)?;
                make_folder(&self.rt, self.places.place())
            }
            Stand::File | Stand::Other => Err(FileFault::Failed),
        }
    }

    // Makes the folders above the file of a name that are missing, and notes them.
    fn make_above(
        &mut self,
        alloc: Global,
        name: &str,
        folders: &mut Vec<String>,
    ) -> Result<(), FileFault> {
        for place in 1..name.len() {
            if let Some((above, rest)) = name.split_at_checked(place) {
                if rest.starts_with('/') {
                    self.places.point_at("", above)?;
                    self.make_missing(alloc, folders)?;
                }
            }
        }
        Ok(())
    }

    // Keeps an object in the file of its id.
    fn write_object(&mut self, object: &Object) -> Result<(), FileFault> {
        self.places.point_at_object(&object.id())?;
        let rest = make_object_text(&mut self.text, object)?;
        match write_new_file(&self.rt, self.places.place(), self.text.as_slice(), rest) {
            // A file of this id is there already, and does not have its text.
            Err(FileFault::Occupied) => self.replace(rest),
            answer => answer,
        }
    }

    // Puts a file of the text and this rest at the place that was taken last, where a file may stand: it is either
    // there or the new one is.
    fn replace(&self, rest: &[u8]) -> Result<(), FileFault> {
        let text = self.text.as_slice();
        write_new_file(&self.rt, self.places.temporary(), text, rest)?;
        rename(&self.rt, self.places.temporary(), self.places.place())
    }

    // Writes what a reference is to say beside its place, where no file is in the place of a folder above it: such a
    // one is to go first.
    fn stage_ref(
        &mut self,
        alloc: Global,
        name: &RefName,
        id: &ObjectId,
        folders: &mut Vec<String>,
    ) -> Result<(), FileFault> {
        let name = name_text(name);
        if self.look_above(name)? == Stand::File {
            return Ok(());
        }
        self.make_above(alloc, name, folders)?;
        self.places.point_at("", name)?;
        self.write_lock(id)
    }

    // Writes what a reference is to say beside the place that was taken last.
    fn write_lock(&mut self, id: &ObjectId) -> Result<(), FileFault> {
        self.text.clear();
        append_ref_text(&mut self.text, id)?;
        write_new_file(&self.rt, self.places.temporary(), self.text.as_slice(), b"")
    }

    // Gives a reference its new value.
    fn place_ref(&mut self, alloc: Global, name: &RefName, id: &ObjectId) -> Result<(), FileFault> {
        let name = name_text(name);
        let mut folders = Vec::new(alloc);
        self.make_above(alloc, name, &mut folders)?;
        self.places.point_at("", name)?;
        if what_stands(&self.rt, self.places.temporary())? == Stand::Nothing {
            self.write_lock(id)?;
        }
        rename(&self.rt, self.places.temporary(), self.places.place())
    }
}
