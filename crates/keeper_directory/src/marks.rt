//! Who works in a folder, and whether anything in it may have changed.

use crate::file_calls::{again, new_file, open_file};
use crate::file_faults::FileFault;
use std::fs;
use std::fs::{File, TryLockError};
use std::os::unix::fs::MetadataExt;
use std::rt::Files;

/// The mark of a call that may change the store, which it holds by a lock of the system: with its process the lock
/// goes, and the mark may stay.
#[derive(Drop)]
pub struct HeldMark {
    file: File,
    is_new: bool,
}

impl HeldMark {
    /// Takes the mark at this path, which is made where nothing stands. `Failed` where another call holds it, where
    /// what stands there is no file, and where the system has no locks and one stands there.
    pub fn take<R: Files<File = File>>(rt: &R, path: &str) -> Result<HeldMark, FileFault> {
        let mark = match new_file(rt, path) {
            Ok(file) => HeldMark { file, is_new: true },
            Err(FileFault::Occupied) => HeldMark {
                file: open_file(rt, path)?,
                is_new: false,
            },
            Err(fault) => return Err(fault),
        };
        match mark.file.try_lock() {
            Ok(()) => {}
            Err(TryLockError::WouldBlock) => return Err(FileFault::Failed),
            Err(TryLockError::Error(_)) => {
                if !mark.is_new {
                    return Err(FileFault::Failed);
                }
            }
        }
        // Whoever held it until now may have taken it away.
        if !mark.stands_at(rt, path)? {
            return Err(FileFault::Failed);
        }
        Ok(mark)
    }

    // Whether this very file stands at the path.
    fn stands_at<R: Files<File = File>>(&self, rt: &R, path: &str) -> Result<bool, FileFault> {
        let held = again(|| self.file.metadata())?;
        let there = again(|| fs::symlink_metadata(rt, path))?;
        Ok(held.dev() == there.dev() && held.ino() == there.ino())
    }

    /// Whether it was made when it was taken, and none was left there.
    pub fn is_new(&self) -> bool {
        self.is_new
    }
}

/// Which folder stands at a path, and when a name was last put into it or taken out, a mark's too.
#[derive(Clone, Copy, Debug, PartialEq, Eq)]
pub struct Moment {
    device: u64,
    node: u64,
    seconds: i64,
    nanoseconds: i64,
}

impl Moment {
    /// What is so of the folder of this path now.
    pub fn of<R: Files>(rt: &R, path: &str) -> Result<Moment, FileFault> {
        let found = again(|| fs::metadata(rt, path))?;
        Ok(Moment {
            device: found.dev(),
            node: found.ino(),
            seconds: found.mtime(),
            nanoseconds: found.mtime_nsec(),
        })
    }
}
