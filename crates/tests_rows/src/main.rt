//! Runs commands over objects in memory, row by row, and prints a line for each run.
//!
//! What it promises, and where to begin: `README.md` in this crate's folder.
#![tactic(auto)]

mod conditions;
mod ending_answers;
mod endless;
mod entry_answers;
mod lines;
mod outside;
mod policy_answers;
pub mod proved_rows;
mod questions;
mod records;
mod runs;
mod scenes;
mod state_answers;
mod stream_answers;
mod words;

use crate::endless::export;
use crate::lines::{line_of, told};
use crate::outside::Seen;
use crate::records::{Piece, Record, first_record};
use crate::scenes::Scene;
use edge_io::{Failed, ReadFault, Sink, StdSink, StdSource, read_all, write_all};
use octets::Memory;
use std::alloc::{AllocFailed, Global};
use std::io;

// So many bytes of rows are read at most.
const MOST: usize = 16_777_216;

// Why the rows were not run to their end.
#[derive(Clone, Copy, Drop)]
enum Stop {
    Input,
    Output,
    Memory,
}

impl From<Memory> for Stop {
    fn from(_error: Memory) -> Stop {
        Stop::Memory
    }
}

impl<T: Drop> From<AllocFailed<T>> for Stop {
    fn from(_error: AllocFailed<T>) -> Stop {
        Stop::Memory
    }
}

impl From<Failed> for Stop {
    fn from(_error: Failed) -> Stop {
        Stop::Output
    }
}

impl From<ReadFault> for Stop {
    fn from(fault: ReadFault) -> Stop {
        match fault {
            ReadFault::Memory => Stop::Memory,
            _ => Stop::Input,
        }
    }
}

// Prints a line for each of what was seen.
fn tell<K: Sink>(alloc: Global, name: &[u8], seen: &[Seen], out: &mut K) -> Result<(), Stop> {
    for one in seen {
        let line = line_of(alloc, name, one)?;
        write_all(out, line.as_slice())?;
    }
    Ok(())
}

// Prints a text.
fn tell_text<K: Sink>(alloc: Global, name: &[u8], text: &[u8], out: &mut K) -> Result<(), Stop> {
    let line = told(alloc, name, text)?;
    write_all(out, line.as_slice())?;
    Ok(())
}

// Prints what is seen of an export without an end.
fn tell_endless<K: Sink>(alloc: Global, name: &[u8], size: usize, out: &mut K) -> Result<(), Stop> {
    let line = line_of(alloc, name, &export(alloc, size)?)?;
    write_all(out, line.as_slice())?;
    Ok(())
}

// The bytes that are kept under a name.
fn kept<'a>(pieces: &[Piece<'a>], name: &[u8]) -> Option<&'a [u8]> {
    for piece in pieces {
        if piece.name == name {
            return Some(piece.bytes);
        }
    }
    None
}

// Adds bytes so many times.
fn add_times(scene: &mut Scene, count: u64, bytes: &[u8]) -> Result<(), Memory> {
    for _ in 0..count {
        scene.add_bytes(bytes)?;
    }
    Ok(())
}

// Sets the row up by a record, or runs what it asks for, and answers the row afterwards.
fn step<'a, K: Sink>(
    alloc: Global,
    record: Record<'a>,
    before: Scene,
    pieces: &mut Vec<Piece<'a>>,
    out: &mut K,
) -> Result<Scene, Stop> {
    let mut scene = before;
    match record {
        Record::Row { name } => return Ok(Scene::new(alloc, name)?),
        Record::Bytes { bytes } => scene.add_bytes(bytes)?,
        Record::Source { bytes } => scene.set_bytes(alloc, bytes)?,
        Record::Keep { piece } => pieces.push(piece)?,
        Record::Take { count, name } => match kept(pieces.as_slice(), name) {
            Some(bytes) => add_times(&mut scene, count, bytes)?,
            None => return Err(Stop::Input),
        },
        Record::Key { key } => scene.set_key(alloc, key)?,
        Record::Condition { condition } => {
            if !scene.set_condition(alloc, condition)? {
                return Err(Stop::Input);
            }
        }
        Record::Held => tell_text(alloc, scene.name(), scene.held(), out)?,
        Record::Sent => tell_text(alloc, scene.name(), scene.sent(), out)?,
        Record::Endless { size } => tell_endless(alloc, scene.name(), size, out)?,
        Record::Run { way, words } => {
            let (seen, later) = scene.run(alloc, way, words)?;
            scene = later;
            tell(alloc, scene.name(), seen.as_slice(), out)?;
        }
        Record::Ask { question } => {
            let (text, later) = scene.ask(alloc, question)?;
            scene = later;
            tell_text(alloc, scene.name(), text.as_slice(), out)?;
        }
    }
    Ok(scene)
}

// Runs all rows, one record after the other.
fn play<K: Sink>(alloc: Global, rows: &[u8], out: &mut K) -> Result<(), Stop> {
    let mut scene = Scene::new(alloc, b"")?;
    let mut pieces = Vec::new(alloc);
    let mut rest = rows;
    for _ in 0..u64::MAX {
        if rest.is_empty() {
            break;
        }
        let Some((record, after)) = first_record(rest) else {
            return Err(Stop::Input);
        };
        rest = after;
        scene = step(alloc, record, scene, &mut pieces, out)?;
    }
    Ok(())
}

fn read_and_play(rt: &HostRuntime) -> Result<(), Stop> {
    let mut source = StdSource::new(rt.stdin());
    let rows = read_all(rt.alloc(), &mut source, MOST)?;
    let mut out = StdSink::new(rt.stdout());
    play(rt.alloc(), rows.as_slice(), &mut out)
}

fn main(rt: HostRuntime) -> io::Result<()> {
    match read_and_play(&rt) {
        Ok(()) => Ok(()),
        Err(Stop::Input) => println!(rt; "these are no rows"),
        Err(Stop::Output) => println!(rt; "a line could not be printed"),
        Err(Stop::Memory) => println!(rt; "out of memory"),
    }
}
