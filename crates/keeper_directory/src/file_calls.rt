//! Calls on files, each made again where the system interrupted it.

ghost use Rattle.std.specs.Prelude.{◌≡◌, ◌≢◌, ◌↔◌, ◌<◌, ◌≤◌, ◌++◌, length, take, IfOk, IfSome, OnOk};
ghost use Rattle.std.specs.Fs.{IsDir, IsFile, file_type};
ghost use Rattle.std.specs.Io.KnownBytes.{Appends, Consumes, IsAtEnd};

use crate::file_faults::FileFault;
use std::alloc::Global;
use std::fs::Metadata;
use std::io::{ErrorKind, Read, Write};
use std::os::fd::IntoRawFd;
use std::rt::Files;
use std::{fs, io};

// How many bytes of names are asked for at a time. It has room for a name of any length that a system allows.
const NAMES: usize = 32768;

/// Makes a call until the system does not interrupt it.
pub fn again<T, F: FnMut() -> io::Result<T>>(mut call: F) -> Result<T, FileFault>
    requires { F.IsAlwaysCallable call }
{
    for _ in 0..u64::MAX {
        match call() {
            Ok(value) => return Ok(value),
            Err(error) => {
                if error.kind() != ErrorKind::Interrupted {
                    return Err(FileFault::from(error));
                }
            }
        }
    }
    Err(FileFault::Failed)
}

/// What stands at a path: a link itself, and not what it leads to.
#[derive(Clone, Copy, Debug, PartialEq, Eq)]
pub enum Stand {
    Nothing,
    File,
    Folder,
    /// A link, a pipe, a device or a socket.
    Other,
}

// What this says of the thing that it is of.
fn stand_of(metadata: &Metadata) -> Stand
    ensures folder { result ≡ Stand.Folder ↔ IsDir (file_type metadata.now) }
    ensures file { result ≡ Stand.File ↔ IsFile (file_type metadata.now) }
    ensures there { result ≢ Stand.Nothing }
{
    if metadata.is_dir() {
        return Stand::Folder;
    }
    if metadata.is_file() {
        return Stand::File;
    }
    Stand::Other
}

/// What stands at a path. No link is followed at its end.
pub fn what_stands<R: Files>(rt: &R, path: &str) -> Result<Stand, FileFault> {
    match again(|| fs::symlink_metadata(rt, path)) {
        Ok(metadata) => Ok(stand_of(&metadata)),
        Err(FileFault::Missing | FileFault::UnderFile) => Ok(Stand::Nothing),
        Err(fault) => Err(fault),
    }
}

/// What a path leads to, over links.
pub fn leads_to<R: Files>(rt: &R, path: &str) -> Result<Stand, FileFault> {
    match again(|| fs::metadata(rt, path)) {
        Ok(metadata) => Ok(stand_of(&metadata)),
        Err(FileFault::Missing) => Ok(Stand::Nothing),
        Err(fault) => Err(fault),
    }
}

/// The file at a path, to be read. Nothing else is opened: a link may lead anywhere, and a pipe would wait for its
/// writer.
pub fn open_file<R: Files>(rt: &R, path: &str) -> Result<R::File, FileFault> {
    match what_stands(rt, path)? {
        Stand::File => again(|| fs::open(rt, path)),
        Stand::Folder => Err(FileFault::IsFolder),
        Stand::Nothing => Err(FileFault::Missing),
        Stand::Other => Err(FileFault::Failed),
    }
}

// Closes a file. What the system could not keep of it may be said only now.
fn close_file<F: IntoRawFd>(file: F) -> Result<(), FileFault> {
    if libc::close(file.into_raw_fd()) < 0 {
        return Err(FileFault::Failed);
    }
    Ok(())
}

/// A new file, where nothing stands, a link included.
pub fn new_file<R: Files>(rt: &R, path: &str) -> Result<R::File, FileFault> {
    again(|| fs::File::create_new(rt, path))
}

/// Writes two parts into a new file, where nothing stands. Where they cannot be written it is taken away again.
pub fn write_new_file<R: Files>(
    rt: &R,
    path: &str,
    first: &[u8],
    second: &[u8],
) -> Result<(), FileFault>
where
    R::File: IntoRawFd,
{
    let mut file = new_file(rt, path)?;
    let mut answer = write_parts(&mut file, first, second);
    let closed = close_file(file);
    if answer.is_ok() {
        answer = closed;
    }
    if answer.is_err() {
        let _ = remove_file(rt, path);
    }
    answer
}

/// Makes a folder where nothing stands.
pub fn make_folder<R: Files>(rt: &R, path: &str) -> Result<(), FileFault> {
    again(|| fs::create_dir(rt, path))
}

/// Gives a file or a folder another name, in the place of a file or an empty folder that has it.
pub fn rename<R: Files>(rt: &R, from: &str, to: &str) -> Result<(), FileFault> {
    again(|| fs::rename(rt, from, to))
}

/// Takes a file away, or a link itself.
pub fn remove_file<R: Files>(rt: &R, path: &str) -> Result<(), FileFault> {
    again(|| fs::remove_file(rt, path))
}

/// Takes an empty folder away.
pub fn remove_folder<R: Files>(rt: &R, path: &str) -> Result<(), FileFault> {
    again(|| fs::remove_dir(rt, path))
}

// One piece of what a reader gives.
fn read_piece<F: Read>(reader: &mut F, piece: &mut [u8]) -> Result<usize, FileFault>
    ensures bound { IfOk result (λ count. count ≤ length piece.new) }
    ensures bytes { IfOk result (λ count. Consumes (F.remaining reader.old) (F.remaining reader.new)
        (take count piece.new)) }
    ensures end { IfOk result (λ count. count ≡ 0 → 0 < length piece.old → IsAtEnd (F.remaining reader.new)) }
{
    for _ in 0..u64::MAX {
        match reader.read(piece) {
            Ok(count) => return Ok(count),
            Err(error) => {
                if error.kind() != ErrorKind::Interrupted {
                    return Err(FileFault::from(error));
                }
            }
        }
    }
    Err(FileFault::Failed)
}

/// The first bytes that a reader gives: at least so many, or all, and no more than `most`.
pub fn read_front<F: Read>(
    alloc: Global,
    reader: &mut F,
    enough: usize,
    most: usize,
) -> Result<Vec<u8>, FileFault>
    requires { enough ≤ most }
    ensures bytes { IfOk result (λ front. Consumes (F.remaining reader.old) (F.remaining reader.new) front.items) }
    ensures end { IfOk result (λ front. length front.items < enough → IsAtEnd (F.remaining reader.new)) }
    ensures bound { IfOk result (λ front. length front.items ≤ most) }
{
    let mut front = Vec::new(alloc);
    let mut piece = vec![in alloc; 0; most]?;
    'front: while front.len() < enough {
        let (_, room) = piece.as_mut_slice().split_at_mut(front.len());
        let count = read_piece(reader, room)?;
        if count == 0 {
            return Ok(front);
        }
        let (start, _) = room.split_at(count);
        front.extend_from_slice(start)?;
    }
    Ok(front)
}

/// Adds what a reader gives, up to so many bytes.
pub fn read_up_to<F: Read + Drop>(
    reader: F,
    most: u64,
    bytes: &mut Vec<u8>,
) -> Result<(), FileFault>
    ensures { OnOk result (IfSome (F.remaining reader) (λ all. bytes.new.items ≡ bytes.old.items ++ take most all)) }
{
    let mut limited = reader.take(most);
    limited.read_to_end(bytes)?;
    Ok(())
}

// Writes one part and then another.
fn write_parts<W: Write>(writer: &mut W, first: &[u8], second: &[u8]) -> Result<(), FileFault>
    ensures { OnOk result (Appends (W.contents writer.old) (W.contents writer.new) (first.now ++ second.now)) }
{
    writer.write_all(first)?;
    writer.write_all(second)?;
    Ok(())
}

/// The names in a folder, each followed by a zero byte.
pub fn read_names<R: Files>(rt: &R, alloc: Global, path: &str) -> Result<Vec<u8>, FileFault> {
    let mut folder = again(|| rt.open_dir(path))?;
    let mut names = Vec::new(alloc);
    let mut piece = vec![in alloc; 0; NAMES]?;
    for _ in 0..u64::MAX {
        let count = read_piece(&mut folder, piece.as_mut_slice())?;
        if count == 0 {
            return Ok(names);
        }
        let (front, _) = piece.as_slice().split_at(count);
        names.extend_from_slice(front)?;
    }
    Err(FileFault::Failed)
}
