//! The program `gittuf-inspect <store> <words>`: it makes the real objects and tells an account of the log.
//!
//! What it promises, and where to begin: `README.md` in this crate's folder.

#![tactic(auto)]

mod commands;
mod listing;
mod policies;
mod running;
mod skipping;
mod words;

use crate::running::inspect;
use crate::words::{Asked, read_words};
use command_words::{Store, WordsFault};
use edge_io::StdSink;
use program_stores::{AnyKeeper, end_store, open_store, words_of};
use std::process::ExitCode;
use worlds::{Ending, Refusal};

// Says a refusal, and answers its status.
fn refuse(rt: &HostRuntime, refusal: Refusal) -> u8 {
    program_stores::refuse(rt.stderr(), &refusal)
}

// Tells what is asked for over a store and standard output.
fn tell(rt: &HostRuntime, asked: Asked, keeper: &mut AnyKeeper) -> u8 {
    let mut sink = StdSink::new(rt.stdout());
    match inspect(rt.alloc(), asked, &mut sink, keeper) {
        Ending::Refused { refusal } => refuse(rt, refusal),
        ending => ending.status(),
    }
}

// Opens the store, which is only read, tells what is asked for, and ends the use of the store.
fn tell_over(rt: &HostRuntime, store: Store, asked: Asked) -> u8 {
    match open_store(rt, store, false) {
        Ok(keeper) => {
            let mut keeper = keeper;
            let status = tell(rt, asked, &mut keeper);
            end_store(rt, keeper, status)
        }
        Err(status) => status,
    }
}

fn start(rt: &HostRuntime, words: &[String]) -> u8 {
    match read_words(rt.alloc(), words) {
        Ok((store, asked)) => tell_over(rt, store, asked),
        Err(WordsFault::Outside) => refuse(rt, Refusal::Words),
        Err(WordsFault::Memory) => refuse(rt, Refusal::Memory),
    }
}

fn main(rt: HostRuntime) -> ExitCode {
    let status = match words_of(&rt) {
        Ok(words) => start(&rt, words.as_slice()),
        Err(refusal) => refuse(&rt, refusal),
    };
    ExitCode::from(status)
}
