//! Says for the launcher `gittuf`, which asks it at each start, whether a file of a list changed since a time.
//!
//! What it promises, and where to begin: `README.md` in this crate's folder.
#![tactic(auto)]

ghost use Rattle.std.specs.Prelude.{◌≡◌, ◌<ℤ◌, ◌⊎◌, ◌↔◌, IsTrue};

use std::fs::Metadata;
use std::os::unix::fs::MetadataExt;
use std::process::ExitCode;
use std::rt::{Env, Files};
use std::{env, fs, io};

/// A time of a file, by the seconds since 1970 and the nanoseconds of the second.
#[derive(Clone, Copy)]
struct Moment {
    seconds: i64,
    nanoseconds: i64,
}

impl Moment {
    /// Whether this is later than another, by the seconds first.
    fn is_after(self, other: Moment) -> bool
        ensures { IsTrue result ↔
            (other.seconds <ℤ self.seconds) ⊎ ((self.seconds ≡ other.seconds) × (other.nanoseconds <ℤ self.nanoseconds)) }
    {
        if self.seconds == other.seconds {
            return self.nanoseconds > other.nanoseconds;
        }
        self.seconds > other.seconds
    }
}

// The file at a path, which may not be a link: what a link leads to can change without it.
fn file_at<R: Files>(rt: &R, path: &str) -> Option<Metadata> {
    let found = fs::symlink_metadata(rt, path).ok()?;
    if found.is_file() { Some(found) } else { None }
}

fn written(file: &Metadata) -> Moment {
    Moment {
        seconds: file.mtime(),
        nanoseconds: file.mtime_nsec(),
    }
}

// The last change of any kind: a file that was moved keeps the time of its text.
fn changed(file: &Metadata) -> Moment {
    Moment {
        seconds: file.ctime(),
        nanoseconds: file.ctime_nsec(),
    }
}

fn is_as_it_was<R: Files>(rt: &R, path: &str, then: Moment) -> bool {
    match file_at(rt, path) {
        Some(file) => !changed(&file).is_after(then),
        None => false,
    }
}

// Whether there is a file in the list, and each one is as it was.
fn are_as_they_were<R: Files>(rt: &R, list: &str, then: Moment) -> bool {
    !list.is_empty() && list.lines().all(|path| is_as_it_was(rt, path, then))
}

// Goes into the folder first, so that each path stays short.
fn is_current<R: Files + Alloc + Env>(rt: &R, folder: &str, list: &str, stamp: &str) -> bool {
    if env::set_current_dir(rt, folder).is_err() {
        return false;
    }
    let Some(stamp) = file_at(rt, stamp) else {
        return false;
    };
    match fs::read_to_string(rt, list) {
        Ok(list) => are_as_they_were(rt, list.as_str(), written(&stamp)),
        Err(_) => false,
    }
}

fn status_of(rt: &HostRuntime, words: &[String]) -> u8 {
    let [_, folder, list, stamp] = words else {
        return 2;
    };
    if is_current(rt, folder.as_str(), list.as_str(), stamp.as_str()) {
        0
    } else {
        1
    }
}

fn words_of(rt: &HostRuntime) -> io::Result<Vec<String>> {
    Ok(env::args(rt)?.collect(rt.alloc())?)
}

fn main(rt: HostRuntime) -> ExitCode {
    let status = match words_of(&rt) {
        Ok(words) => status_of(&rt, words.as_slice()),
        Err(_) => 2,
    };
    ExitCode::from(status)
}
