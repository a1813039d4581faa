//! A file of the system as a disk. It tells no bytes.

ghost use Rattle.std.specs.Prelude.{◌≡◌, None, refl};
ghost use Rattle.octets.specs.Causes.{HasCause, each};
ghost use Rattle.edge_io.specs.Nothing.{told_nothing};

use crate::{Disk, Failed};
use std::fs::{File, OpenOptions};
use std::io;
use std::os::unix::fs::{FileExt, OpenOptionsExt, PermissionsExt};
use std::path::Path;
use std::rt::Files;

// Of a file that is made its owner alone reads and writes.
const OWNER_ALONE: u32 = 0o600;

// The rights of all others.
const OTHERS: u32 = 0o077;

/// An open file. While it is open, no other `FileDisk` opens the same file.
#[derive(Drop)]
pub struct FileDisk {
    file: File,
    shared: bool,
    faults: u64,
}

// Keeps the name of a file that was just made, which a crash may else lose.
fn sync_folder<R: Files<File = File>>(rt: &R, path: &str) -> io::Result<()> {
    let folder = match Path::new(path).parent() {
        Some(folder) => folder.as_str(),
        None => "",
    };
    let folder = if folder.is_empty() { "." } else { folder };
    File::open(rt, folder)?.sync_all()
}

// The file at a path. Where nothing stands there it is made, empty.
fn open_or_make<R: Files<File = File>>(rt: &R, path: &str) -> io::Result<File> {
    let mut how = OpenOptions::new();
    how.read(true).write(true).mode(OWNER_ALONE);
    match how.open(rt, path) {
        Ok(file) => return Ok(file),
        Err(error) => {
            if error.kind() != io::ErrorKind::NotFound {
                return Err(error);
            }
        }
    }
    let file = how.create(true).open(rt, path)?;
    sync_folder(rt, path)?;
    Ok(file)
}

// The file at a path, locked, and whether others than its owner may read or write it.
fn open_locked<R: Files<File = File>>(rt: &R, path: &str) -> io::Result<(File, bool)> {
    let file = open_or_make(rt, path)?;
    let found = file.metadata()?;
    if !found.is_file() {
        return Err(io::Error::from(io::ErrorKind::InvalidInput));
    }
    file.try_lock()?;
    Ok((file, found.permissions().mode() & OTHERS != 0))
}

impl FileDisk {
    /// The file at a path, which is made where nothing stands there: empty, and for its owner alone to read and write.
    /// `Failed` comes where the system refuses, where what stands there is no file, and where another `FileDisk` has
    /// it open.
    pub fn open<R: Files<File = File>>(rt: &R, path: &str) -> Result<FileDisk, Failed> {
        match open_locked(rt, path) {
            Ok((file, shared)) => Ok(FileDisk {
                file,
                shared,
                faults: 0,
            }),
            Err(_) => Err(Failed),
        }
    }

    /// Whether others than its owner might read or write the file when it was opened.
    pub fn is_shared(&self) -> bool {
        self.shared
    }

    // What a call of the system came to, of which an error is a fault.
    fn counted<T: Drop>(&mut self, answer: io::Result<T>) -> Result<T, Failed>
        ensures { HasCause each self.old.faults self.new.faults result }
    {
        match answer {
            Ok(value) => Ok(value),
            Err(_) => {
                self.faults = self.faults.saturating_add(1);
                Err(Failed)
            }
        }
    }
}

// The number of bytes in a file.
fn len_of(file: &File) -> io::Result<u64> {
    Ok(file.metadata()?.len())
}

impl Disk for FileDisk {
    ghost seen = { λ _. None };

    ghost may_leave = { λ _ _. ⊥ };

    ghost moment = { λ _. 0 };

    ghost left_since = { λ _ _ _. ⊥ };

    ghost faults = { λ s. s.faults };

    ghost counts_now = { λ _ _ _ _ may. may };

    ghost only_now = { λ _ _ left. left };

    ghost seen_may_stay = { λ _ bytes told. told_nothing bytes None refl told };

    ghost told = { λ _ _ may. absurd may };

    fn len(&mut self) -> Result<u64, Failed> {
        let answer = len_of(&self.file);
        self.counted(answer)
    }

    fn read(&mut self, at: u64, out: &mut [u8]) -> Result<(), Failed> {
        let answer = self.file.read_exact_at(out, at);
        self.counted(answer)
    }

    fn write_at(&mut self, at: u64, bytes: &[u8]) -> Result<(), Failed> {
        let answer = self.file.write_all_at(bytes, at);
        self.counted(answer)
    }

    fn sync(&mut self) -> Result<(), Failed> {
        let answer = self.file.sync_all();
        self.counted(answer)
    }
}
