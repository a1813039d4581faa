//! Mending a change that was stopped half way.

use crate::file_calls::{Stand, open_file, read_up_to, what_stands};
use crate::file_faults::FileFault;
use crate::folders::Folder;
use crate::journals::Journal;
use crate::ref_files::name_text;
use crate::ref_plans::{RefPlan, plan_of};
use git_object::ObjectId;
use std::alloc::Global;
use std::fs::File;
use std::rt::Files;

// A journal has at most so many bytes, as many as a stream.
const LONGEST_JOURNAL: u64 = 1 << 30;

impl<R: Files<File = File>> Folder<R> {
    /// Makes the change whole whose mark stands here, where each of its objects is, and else takes it back. `Failed`
    /// where the mark has no journal in it: it is that of another program, whose change nothing tells.
    pub fn mend(&mut self, alloc: Global) -> Result<(), FileFault> {
        let journal = self.journal(alloc)?;
        let plan = plan_of(alloc, journal.refs.as_slice())?;
        let objects = journal.objects.as_slice();
        self.expect_files(&plan)?;
        self.remove_staged(objects, &plan)?;
        if self.are_whole(alloc, objects)? {
            self.place(alloc, &plan)?;
        } else {
            self.expect_not_placed(alloc, &plan)?;
            for id in objects {
                self.places.point_at_object(id)?;
                self.remove_place()?;
            }
        }
        self.close_change()
    }

    // What the mark of the change says.
    fn journal(&self, alloc: Global) -> Result<Journal, FileFault> {
        let file = open_file(&self.rt, self.commit_mark.as_str())?;
        let mut text = Vec::new(alloc);
        read_up_to(file, LONGEST_JOURNAL, &mut text)?;
        match Journal::read(alloc, text.as_slice())? {
            Some(journal) => Ok(journal),
            None => Err(FileFault::Failed),
        }
    }

    // Refuses a plan where a link, a pipe or a device is in the place of a file or of a folder above it, or anything
    // but a file beside it.
    fn expect_files(&mut self, plan: &RefPlan) -> Result<(), FileFault> {
        for (name, _) in plan {
            let text = name_text(name);
            if self.look_above(text)? == Stand::Other {
                return Err(FileFault::Failed);
            }
            self.places.point_at("", text)?;
            if what_stands(&self.rt, self.places.place())? == Stand::Other {
                return Err(FileFault::Failed);
            }
            match what_stands(&self.rt, self.places.temporary())? {
                Stand::Nothing | Stand::File => {}
                Stand::Folder | Stand::Other => return Err(FileFault::Failed),
            }
        }
        Ok(())
    }

    fn are_whole(&mut self, alloc: Global, ids: &[ObjectId]) -> Result<bool, FileFault> {
        for id in ids {
            if !self.is_whole(alloc, id)? {
                return Ok(false);
            }
        }
        Ok(true)
    }

    // Refuses a plan of which something was made: only once all objects were whole, so one was lost since.
    fn expect_not_placed(&mut self, alloc: Global, plan: &RefPlan) -> Result<(), FileFault> {
        for (name, to) in plan {
            match self.read_ref(alloc, name) {
                Ok(id) => {
                    if id == *to {
                        return Err(FileFault::Failed);
                    }
                }
                Err(FileFault::Memory) => return Err(FileFault::Memory),
                Err(_) => {}
            }
        }
        Ok(())
    }
}
