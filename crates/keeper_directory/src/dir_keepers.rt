//! The keeper over a folder.

ghost use Rattle.std.specs.Prelude.{◌≡◌, ◌≤◌, Ok, IfOk, IsErr, IsErrOf, OnErr, OnOk};
ghost use Rattle.octets.specs.Causes.{one_more};
ghost use Rattle.octets.specs.Causes.{count_after};
ghost use Rattle.keeper_api.specs.Faults.{keeper_failed};

use crate::file_faults::FileFault;
use crate::folders::{Folder, Hold};
use crate::key_sets::{keys_after, set_of};
use crate::open_faults::OpenFault;
use crate::ref_plans::{change_names, is_crossed, plan_of};
use git_object::{Object, ObjectId, RefName};
use keeper_api::{Change, KeeperFault, RefValue};
use octets::Memory;
use std::alloc::Global;
use std::collections::BTreeSet;
use std::fs::File;
use std::rt::Files;

// A change of more objects is not noted in the list of ids one by one.
const MOST_NOTED: usize = 4096;

/// A keeper over a folder, which tells no content.
///
/// The object of an id is kept in the file `objects/<64 hexadecimal digits>`, as kind, space, decimal length, zero
/// byte and body; a reference in the file of its name, as 64 hexadecimal digits and a line feed. Files of other
/// names are passed over. A file of another form is a fault, a link, a pipe or a device in a file's place too, and so
/// is a change that sets a reference whose name is a folder.
///
/// One call changes the folder at a time. While it may, it holds the file `open.lock` there; while a change is made,
/// and where it was left half made, `commit.lock` stands beside it and says what is to change.
#[derive(Drop)]
pub struct DirKeeper<R: Files = HostRuntime> {
    folder: Folder<R>,
    // What is in the folder, once it was gone over.
    ids: Option<BTreeSet<ObjectId>>,
    names: Option<BTreeSet<RefName>>,
    faults: u64,
    reads: u64,
}

impl<R: Files<File = File>> DirKeeper<R> {
    /// The keeper over the folder of this path, which may end in a slash, for calls that only read: each `commit`
    /// answers `Failed`. `Failed` where there is no such folder, so that a wrong path is not read as an empty
    /// repository.
    pub fn to_read(rt: &R, alloc: Global, folder: &str) -> Result<DirKeeper<R>, OpenFault>
    where
        R: Clone + Drop,
        ensures faults { IfOk result (λ keeper. keeper.faults ≡ 0) }
        ensures reads { IfOk result (λ keeper. keeper.reads ≡ 0) }
    {
        Ok(DirKeeper::over(Folder::to_read(rt.clone()?, alloc, folder)?))
    }

    /// The keeper over the folder of this path, which may end in a slash, for calls that may change it, until `end`:
    /// until then every other one is kept out. The folder is made where nothing is, and what a call left there that
    /// was stopped in a change is mended.
    pub fn to_change(rt: &R, alloc: Global, folder: &str) -> Result<DirKeeper<R>, OpenFault>
    where
        R: Clone + Drop,
        ensures faults { IfOk result (λ keeper. keeper.faults ≡ 0) }
        ensures reads { IfOk result (λ keeper. keeper.reads ≡ 0) }
    {
        Ok(DirKeeper::over(Folder::to_change(rt.clone()?, alloc, folder)?))
    }

    fn over(folder: Folder<R>) -> DirKeeper<R>
        ensures faults { result.faults ≡ 0 }
        ensures reads { result.reads ≡ 0 }
    {
        DirKeeper {
            folder,
            ids: None,
            names: None,
            faults: 0,
            reads: 0,
        }
    }

    /// Lets others at the folder, and takes it away again where it was made for this keeper and nothing was ever
    /// committed. A folder with a change that was left half made stays marked. For a keeper that only reads `Failed`
    /// says that another call may have changed the folder since it was opened, so that what was read may be of two
    /// states.
    pub fn end(self, alloc: Global) -> Result<(), KeeperFault>
    where
        R: Drop,
    {
        let mut folder = self.folder;
        Ok(folder.end(alloc)?)
    }

    // Counts a fault where the answer is one.
    fn counted<T: Drop>(&mut self, answer: Result<T, FileFault>) -> Result<T, KeeperFault>
        ensures faults { self.new.faults ≡ count_after keeper_failed self.old.faults result }
        ensures later { self.old.faults ≤ self.new.faults }
        ensures reads { self.new.reads ≡ self.old.reads }
        ensures answer { IfOk answer (λ value. result ≡ Ok value) }
        ensures failed { OnErr answer (IsErr result) }
        ensures memory { IsErrOf result KeeperFault.Memory → IsErrOf answer FileFault.Memory }
        ensures folder { self.new.folder ≡ self.old.folder }
    {
        match answer {
            Ok(value) => Ok(value),
            Err(fault) => {
                let fault = KeeperFault::from(fault);
                if fault == KeeperFault::Failed {
                    self.faults = self.faults.saturating_add(1);
                }
                Err(fault)
            }
        }
    }

    pub(crate) fn object_of(
        &mut self,
        alloc: Global,
        id: &ObjectId,
    ) -> Result<Option<Object>, KeeperFault>
        ensures faults { self.new.faults ≡ count_after keeper_failed self.old.faults result }
        ensures later { self.old.faults ≤ self.new.faults }
        ensures reads { self.new.reads ≡ one_more self.old.reads }
    {
        self.reads = self.reads.saturating_add(1);
        let answer = self.folder.read_object(alloc, id);
        self.counted(answer)
    }

    pub(crate) fn id_of_ref(
        &mut self,
        alloc: Global,
        name: &RefName,
    ) -> Result<Option<ObjectId>, KeeperFault>
        ensures faults { self.new.faults ≡ count_after keeper_failed self.old.faults result }
        ensures later { self.old.faults ≤ self.new.faults }
        ensures reads { self.new.reads ≡ self.old.reads }
    {
        let answer = self.folder.read_ref(alloc, name);
        self.counted(answer)
    }

    // The ids in the folder, of which a list is made at the first call.
    fn first_id(
        &mut self,
        alloc: Global,
        after: Option<&ObjectId>,
    ) -> Result<Option<ObjectId>, FileFault>
        ensures faults { self.new.faults ≡ self.old.faults }
        ensures reads { self.new.reads ≡ self.old.reads }
    {
        let ids = match self.ids.take() {
            Some(ids) => ids,
            None => set_of(alloc, self.folder.ids(alloc)?)?,
        };
        let first = keys_after(&ids, after).next().copied();
        self.ids = Some(ids);
        Ok(first)
    }

    pub(crate) fn id_after(
        &mut self,
        alloc: Global,
        after: Option<&ObjectId>,
    ) -> Result<Option<ObjectId>, KeeperFault>
        ensures faults { self.new.faults ≡ count_after keeper_failed self.old.faults result }
        ensures later { self.old.faults ≤ self.new.faults }
        ensures reads { self.new.reads ≡ self.old.reads }
    {
        let answer = self.first_id(alloc, after);
        self.counted(answer)
    }

    // The names in the folder, of which a list is made at the first call.
    fn take_names(&mut self, alloc: Global) -> Result<BTreeSet<RefName>, FileFault>
        ensures hold { self.new.folder.hold ≡ self.old.folder.hold }
        ensures faults { self.new.faults ≡ self.old.faults }
        ensures reads { self.new.reads ≡ self.old.reads }
    {
        match self.names.take() {
            Some(names) => Ok(names),
            None => Ok(set_of(alloc, self.folder.names(alloc)?)?),
        }
    }

    fn first_ref(
        &mut self,
        alloc: Global,
        after: Option<&RefName>,
    ) -> Result<Option<RefValue>, FileFault>
        ensures faults { self.new.faults ≡ self.old.faults }
        ensures reads { self.new.reads ≡ self.old.reads }
    {
        let names = self.take_names(alloc)?;
        let answer = self.folder.first_ref(alloc, &names, after);
        self.names = Some(names);
        answer
    }

    pub(crate) fn ref_after(
        &mut self,
        alloc: Global,
        after: Option<&RefName>,
    ) -> Result<Option<RefValue>, KeeperFault>
        ensures faults { self.new.faults ≡ count_after keeper_failed self.old.faults result }
        ensures later { self.old.faults ≤ self.new.faults }
        ensures reads { self.new.reads ≡ self.old.reads }
    {
        let answer = self.first_ref(alloc, after);
        self.counted(answer)
    }

    // Notes the objects that were kept in the list of ids, where there is one. A list for which memory is wanting, or
    // to which more is to be added than would be quick, is dropped, and made anew when it is asked for.
    fn note_ids(&mut self, objects: &[Object])
        ensures hold { self.new.folder ≡ self.old.folder }
        ensures faults { self.new.faults ≡ self.old.faults }
        ensures reads { self.new.reads ≡ self.old.reads }
    {
        let Some(mut ids) = self.ids.take() else {
            return;
        };
        if objects.len() > MOST_NOTED {
            return;
        }
        for object in objects {
            if ids.insert(object.id()).is_err() {
                return;
            }
        }
        self.ids = Some(ids);
    }

    // Makes a change. Where it is refused or fails, the lists are dropped that it may have made untrue.
    fn change(&mut self, alloc: Global, change: &Change) -> Result<(), FileFault>
        ensures open { OnOk result (self.old.folder.hold ≡ Hold.Open) }
        ensures whole { OnOk result (self.new.folder.hold ≡ Hold.Open) }
        ensures memory { IsErrOf result FileFault.Memory → self.new.folder.hold ≡ self.old.folder.hold }
        ensures faults { self.new.faults ≡ self.old.faults }
        ensures reads { self.new.reads ≡ self.old.reads }
    {
        let asked = plan_of(alloc, change.refs.as_slice())?;
        let plan = self.folder.needed(alloc, &asked)?;
        if plan.is_empty() {
            self.folder.write(alloc, change.objects.as_slice(), &plan)?;
        } else {
            let mut names = self.take_names(alloc)?;
            change_names(&mut names, &plan)?;
            if is_crossed(alloc, &names, &plan)? {
                return Err(FileFault::Failed);
            }
            self.folder.expect_places(&names, &plan)?;
            self.folder.write(alloc, change.objects.as_slice(), &plan)?;
            self.names = Some(names);
        }
        self.note_ids(change.objects.as_slice());
        Ok(())
    }

    // It makes a change only where the mark of an opened store stands, which stands there again after it, and where
    // memory is wanting nothing was begun.
    pub(crate) fn make(&mut self, alloc: Global, change: &Change) -> Result<(), KeeperFault>
        ensures open { OnOk result (self.old.folder.hold ≡ Hold.Open) }
        ensures whole { OnOk result (self.new.folder.hold ≡ Hold.Open) }
        ensures memory { IsErrOf result KeeperFault.Memory → self.new.folder.hold ≡ self.old.folder.hold }
        ensures faults { self.new.faults ≡ count_after keeper_failed self.old.faults result }
        ensures later { self.old.faults ≤ self.new.faults }
        ensures reads { self.new.reads ≡ self.old.reads }
    {
        let answer = self.change(alloc, change);
        self.counted(answer)
    }

    pub(crate) fn fault_count(&self) -> u64
        ensures { result ≡ self.now.faults }
    {
        self.faults
    }
}
