//! A folder of objects and references, from its opening to its end.

ghost use Rattle.std.specs.Prelude.{◌≡◌, OnOk, OnErr};

use crate::file_calls::{
    Stand, leads_to, read_names, remove_file, rename, what_stands, write_new_file,
};
use crate::file_faults::FileFault;
use crate::made_folders::MadeFolder;
use crate::marks::{HeldMark, Moment};
use crate::places::FolderPaths;
use crate::stores::{has_begun, is_free, may_be_kept, may_be_mended};
use std::alloc::Global;
use std::fs::File;
use std::rt::Files;

// Room for the head of an object's file and a small body.
const TEXT_ROOM: usize = 8192;

// The mark of a call that may change the store, that of a change that has begun, and what is to become the latter.
const OPEN: &str = "open.lock";

const COMMIT: &str = "commit.lock";

const NEXT_COMMIT: &str = "commit.new";

/// What may be done in a folder.
#[derive(Clone, Copy, Debug, PartialEq, Eq)]
pub enum Hold {
    /// It is read alone, and no mark is in it.
    Reading,
    /// It may be changed, and `open.lock` is in it.
    Open,
    /// A change is not whole, and `commit.lock` is in it too.
    Half,
}

/// The files of a folder. What is needed to write an object or a reference, its memory among it, is taken when this
/// is made.
#[derive(Drop)]
pub struct Folder<R: Files> {
    pub rt: R,
    pub places: FolderPaths,
    pub text: Vec<u8>,
    pub hold: Hold,
    made: Option<MadeFolder>,
    // The mark, where the folder may be changed.
    mark: Option<HeldMark>,
    // How the folder was found, where it is read alone.
    found: Option<Moment>,
    // The paths of the marks.
    open_mark: String,
    pub commit_mark: String,
    next_mark: String,
}

impl<R: Files<File = File>> Folder<R> {
    fn at(rt: R, alloc: Global, path: &str) -> Result<Folder<R>, FileFault>
    where
        R: Drop,
    {
        let mut places = FolderPaths::of(alloc, path)?;
        places.point_at("", OPEN)?;
        let open_mark = String::from_str(alloc, places.place())?;
        places.point_at("", COMMIT)?;
        let commit_mark = String::from_str(alloc, places.place())?;
        places.point_at("", NEXT_COMMIT)?;
        let next_mark = String::from_str(alloc, places.place())?;
        Ok(Folder {
            rt,
            places,
            text: Vec::with_capacity(alloc, TEXT_ROOM)?,
            hold: Hold::Reading,
            made: None,
            mark: None,
            found: None,
            open_mark,
            commit_mark,
            next_mark,
        })
    }

    /// The folder of this path, to be read. It is there, may be a store's, and has no mark in it.
    pub fn to_read(rt: R, alloc: Global, path: &str) -> Result<Folder<R>, FileFault>
    where
        R: Drop,
    {
        let mut folder = Folder::at(rt, alloc, path)?;
        // What changes from here on is met at the end.
        let found = Moment::of(&folder.rt, folder.places.folder())?;
        folder.expect_unmarked(alloc)?;
        folder.found = Some(found);
        Ok(folder)
    }

    /// The folder of this path, which may be changed until `end`: its mark keeps every other call out. It is made
    /// where nothing is, and a change that was stopped in it is mended.
    pub fn to_change(rt: R, alloc: Global, path: &str) -> Result<Folder<R>, FileFault>
    where
        R: Drop,
    {
        let mut folder = Folder::at(rt, alloc, path)?;
        if leads_to(&folder.rt, path)? == Stand::Nothing {
            let (made, mark) = MadeFolder::make(&folder.rt, alloc, path, OPEN)?;
            folder.made = Some(made);
            folder.mark = Some(mark);
        } else {
            folder.take(alloc)?;
        }
        folder.hold = Hold::Open;
        Ok(folder)
    }

    // Takes the mark of a folder that is there. What is in it is looked at before, so that nothing is put into what
    // is no store, and after that, since another call may have been there in between.
    fn take(&mut self, alloc: Global) -> Result<(), FileFault> {
        self.expect_store(alloc)?;
        let mark = HeldMark::take(&self.rt, self.open_mark.as_str())?;
        let answer = self.settle(alloc);
        if answer.is_err() {
            if mark.is_new() {
                let _ = remove_file(&self.rt, self.open_mark.as_str());
            }
            return answer;
        }
        self.mark = Some(mark);
        Ok(())
    }

    // Mends what a stop left, once the mark is held.
    fn settle(&mut self, alloc: Global) -> Result<(), FileFault> {
        let begun = self.expect_store(alloc)?;
        match remove_file(&self.rt, self.next_mark.as_str()) {
            Ok(()) | Err(FileFault::Missing) => {}
            Err(fault) => return Err(fault),
        }
        if begun {
            return self.mend(alloc);
        }
        Ok(())
    }

    // Refuses a folder that is no store's, and tells whether a change was left half made in it.
    fn expect_store(&mut self, alloc: Global) -> Result<bool, FileFault> {
        let names = read_names(&self.rt, alloc, self.places.folder())?;
        if !may_be_mended(names.as_slice()) {
            return Err(FileFault::Failed);
        }
        self.expect_folder("objects")?;
        self.expect_folder("refs")?;
        Ok(has_begun(names.as_slice()))
    }

    // Refuses a folder that is no store's, or has a mark in it.
    fn expect_unmarked(&mut self, alloc: Global) -> Result<(), FileFault> {
        let names = read_names(&self.rt, alloc, self.places.folder())?;
        if !may_be_kept(names.as_slice()) || !is_free(names.as_slice()) {
            return Err(FileFault::Failed);
        }
        self.expect_folder("objects")?;
        self.expect_folder("refs")
    }

    // Refuses anything but a folder under a name in this one, a link to a folder too.
    fn expect_folder(&mut self, name: &str) -> Result<(), FileFault> {
        self.places.point_at("", name)?;
        match what_stands(&self.rt, self.places.place())? {
            Stand::Folder | Stand::Nothing => Ok(()),
            Stand::File | Stand::Other => Err(FileFault::Failed),
        }
    }

    /// Takes the mark away, and the folder itself where it was made and nothing was kept in it. A folder with a
    /// change that is not whole stays as it is. Where the folder was read alone, `Failed` tells that another call may
    /// have changed it meanwhile.
    pub fn end(&mut self, alloc: Global) -> Result<(), FileFault> {
        match self.hold {
            Hold::Reading => self.expect_as_found(alloc),
            Hold::Half => Ok(()),
            Hold::Open => {
                self.hold = Hold::Reading;
                match self.made.take() {
                    Some(made) => made.take_away(&self.rt, alloc, OPEN),
                    None => remove_file(&self.rt, self.open_mark.as_str()),
                }
            }
        }
    }

    // Refuses a folder that was read where no mark could come and go unseen.
    fn expect_as_found(&mut self, alloc: Global) -> Result<(), FileFault> {
        let Some(found) = self.found.take() else {
            return Ok(());
        };
        self.expect_unmarked(alloc)?;
        if Moment::of(&self.rt, self.places.folder())? != found {
            return Err(FileFault::Failed);
        }
        Ok(())
    }

    /// Begins a change of this journal: from here on the folder is no store, until the change is whole. Its mark
    /// stands beside that of the opened store, which stays, so that nobody else's can come in between.
    pub fn begin(&mut self, journal: &[u8]) -> Result<(), FileFault>
        ensures open { OnOk result (self.old.hold ≡ Hold.Open) }
        ensures begun { OnOk result (self.new.hold ≡ Hold.Half) }
        ensures not_begun { OnErr result (self.new.hold ≡ self.old.hold) }
    {
        if self.hold != Hold::Open {
            return Err(FileFault::Failed);
        }
        let answer = self.put_journal(journal);
        if answer.is_err() {
            return answer;
        }
        self.hold = Hold::Half;
        Ok(())
    }

    // Puts the journal into its place, whole, where nothing stands.
    fn put_journal(&self, journal: &[u8]) -> Result<(), FileFault> {
        if what_stands(&self.rt, self.commit_mark.as_str())? != Stand::Nothing {
            return Err(FileFault::Failed);
        }
        write_new_file(&self.rt, self.next_mark.as_str(), journal, b"")?;
        let answer = rename(&self.rt, self.next_mark.as_str(), self.commit_mark.as_str());
        if answer.is_err() {
            let _ = remove_file(&self.rt, self.next_mark.as_str());
        }
        answer
    }

    /// Ends a change that is whole.
    pub fn finish(&mut self) -> Result<(), FileFault>
        ensures { OnOk result (self.new.hold ≡ Hold.Open) }
    {
        self.close_change()?;
        // What is kept now is not to be taken away.
        self.made = None;
        Ok(())
    }

    /// Ends a change that is whole, or of which nothing is left.
    pub fn close_change(&mut self) -> Result<(), FileFault>
        ensures done { OnOk result (self.new.hold ≡ Hold.Open) }
        ensures left { OnErr result (self.new.hold ≡ self.old.hold) }
    {
        remove_file(&self.rt, self.commit_mark.as_str())?;
        self.hold = Hold::Open;
        Ok(())
    }
}
