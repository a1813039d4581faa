//! The folder of a store that is made for it, and taken away again where nothing was ever kept in it.

use crate::file_calls::{Stand, leads_to, make_folder, remove_file, remove_folder, rename};
use crate::file_faults::FileFault;
use crate::marks::HeldMark;
use crate::places::FolderPaths;
use itoa::Buffer;
use std::alloc::Global;
use std::fs::File;
use std::rt::Files;

// How many folders that a stop left beside the place are passed over.
const MOST_LEFT: u64 = 100;

// A dot, at most two digits and `.lock`.
const LONGEST_END: usize = 8;

/// A folder that was made, and those above it. It gets its name when the mark is in it already, and loses it before
/// the mark goes: meanwhile it stands beside its place, under its name and `.<number>.lock`.
#[derive(Drop)]
pub struct MadeFolder {
    path: String,
    beside: String,
    // The length of the shortest path above that was made, or that of the path.
    shortest: usize,
}

impl MadeFolder {
    /// Makes the folder of this path with this mark in it, and the folders above it that are missing. Where that
    /// fails, nothing of it stays.
    pub fn make<R: Files<File = File>>(
        rt: &R,
        alloc: Global,
        path: &str,
        mark: &str,
    ) -> Result<(MadeFolder, HeldMark), FileFault> {
        let path = path.trim_end_matches('/');
        let room = path.len().saturating_add(LONGEST_END);
        let mut made = MadeFolder {
            path: String::from_str(alloc, path)?,
            beside: String::with_capacity(alloc, room)?,
            shortest: path.len(),
        };
        let mut places = FolderPaths::of(alloc, "")?;
        let answer = made.make_all(rt, alloc, mark, &mut places);
        match answer {
            Ok(mark) => Ok((made, mark)),
            Err(fault) => {
                made.remove_above(rt);
                Err(fault)
            }
        }
    }

    fn make_all<R: Files<File = File>>(
        &mut self,
        rt: &R,
        alloc: Global,
        mark: &str,
        places: &mut FolderPaths,
    ) -> Result<HeldMark, FileFault> {
        self.make_above(rt)?;
        self.make_beside(rt)?;
        *places = FolderPaths::of(alloc, self.beside.as_str())?;
        let answer = self.mark_and_move(rt, mark, places);
        if answer.is_err() {
            let _ = remove_file(rt, places.place());
            let _ = remove_folder(rt, self.beside.as_str());
        }
        answer
    }

    fn mark_and_move<R: Files<File = File>>(
        &self,
        rt: &R,
        mark: &str,
        places: &mut FolderPaths,
    ) -> Result<HeldMark, FileFault> {
        places.point_at("", mark)?;
        let mark = HeldMark::take(rt, places.place())?;
        rename(rt, self.beside.as_str(), self.path.as_str())?;
        Ok(mark)
    }

    // Makes the folders above that are missing.
    fn make_above<R: Files>(&mut self, rt: &R) -> Result<(), FileFault> {
        for place in 1..self.path.len() {
            if let Some((above, rest)) = self.path.as_str().split_at_checked(place) {
                if rest.starts_with('/') && leads_to(rt, above)? == Stand::Nothing {
                    make_folder(rt, above)?;
                    self.shortest = self.shortest.min(place);
                }
            }
        }
        Ok(())
    }

    // Makes the folder beside its place, under a name that nothing has.
    fn make_beside<R: Files>(&mut self, rt: &R) -> Result<(), FileFault> {
        for number in 0..MOST_LEFT {
            let mut digits = Buffer::new();
            self.beside.clear();
            self.beside.push_str(self.path.as_str())?;
            self.beside.push('.')?;
            self.beside.push_str(digits.format(number))?;
            self.beside.push_str(".lock")?;
            match make_folder(rt, self.beside.as_str()) {
                Err(FileFault::Occupied) => {}
                answer => return answer,
            }
        }
        Err(FileFault::Failed)
    }

    // Takes the folders above away that were made, as far as they are empty.
    fn remove_above<R: Files>(&self, rt: &R) {
        let mut below = self.path.as_str();
        for _ in 0..self.path.len() {
            let Some((above, _)) = below.rsplit_once('/') else {
                return;
            };
            if above.len() < self.shortest || remove_folder(rt, above).is_err() {
                return;
            }
            below = above;
        }
    }

    /// Takes the folder away again, in which nothing but this mark is, and those above it that were made for it.
    pub fn take_away<R: Files>(&self, rt: &R, alloc: Global, mark: &str) -> Result<(), FileFault> {
        let mut places = FolderPaths::of(alloc, self.beside.as_str())?;
        places.point_at("", mark)?;
        rename(rt, self.path.as_str(), self.beside.as_str())?;
        remove_file(rt, places.place())?;
        match remove_folder(rt, self.beside.as_str()) {
            Ok(()) => {
                self.remove_above(rt);
                Ok(())
            }
            Err(fault) => {
                // Something else was put into it.
                rename(rt, self.beside.as_str(), self.path.as_str())?;
                Err(fault)
            }
        }
    }
}
