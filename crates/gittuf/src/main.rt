//! The program `gittuf <store> <key> <command>`: it makes the real objects and calls `gittuf_cli::run`.
//!
//! What it promises, and where to begin: `README.md` in this crate's folder.

#![tactic(auto)]

mod hints;
mod needs;
mod serving;

use crate::hints::{hint_at_desk, hint_at_shared_key, hint_at_slow_key};
use crate::needs::{Needs, needs_of};
use crate::serving::desk_of;
use command_words::{FrontWords, KeyPlace, after_places};
use edge_io::{Failed, FileDisk, MemDisk, OsClock, OsEntropy, StdSink, StdSource};
use gittuf_cli::{Outside, run};
use keeper_layers::EitherDisk;
use links::TcpPeer;
use octets::Octets;
use program_desk::{say_end, serve_asked};
use program_stores::{AnyKeeper, end_store, open_store, words_of};
use std::process::ExitCode;
use worlds::{Part, Refusal};

// What a key file in memory has room for: the bytes of the largest key file and of its marks, and the calls of a
// command.
const KEY_BYTES: usize = 32_840;

const KEY_CALLS: usize = 1_024;

// A key file at a path, or one in memory.
type AnyDisk = EitherDisk<FileDisk, MemDisk>;

// Says a refusal, and answers its status.
fn refuse(rt: &HostRuntime, refusal: Refusal) -> u8 {
    program_stores::refuse(rt.stderr(), &refusal)
}

// The key file at a path.
fn open_file(rt: &HostRuntime, path: &str) -> Result<AnyDisk, Refusal> {
    match FileDisk::open(rt, path) {
        Ok(disk) => {
            hint_at_shared_key(rt, &disk);
            Ok(EitherDisk::First(disk))
        }
        Err(Failed) => Err(Refusal::Fault { part: Part::Disk }),
    }
}

// The key file that the words name, where the command uses one, and else an empty one in memory.
fn open_key(rt: &HostRuntime, key: KeyPlace, needs: &Needs) -> Result<AnyDisk, Refusal> {
    hint_at_slow_key(rt, needs);
    match key {
        KeyPlace::File(path) if needs.key => open_file(rt, path),
        _ => match MemDisk::new(Octets::new(rt.alloc()), KEY_BYTES, KEY_CALLS) {
            Ok(disk) => Ok(EitherDisk::Second(disk)),
            Err(_) => Err(Refusal::Memory),
        },
    }
}

// Runs the command of the words over a store, a key file, the standard streams and the programs at ports of this
// machine, and gives the store back.
fn run_over(
    rt: &HostRuntime,
    command: &[String],
    keeper: AnyKeeper,
    disk: AnyDisk,
) -> (u8, AnyKeeper) {
    let mut outside = Outside {
        source: StdSource::new(rt.stdin()),
        sink: StdSink::new(rt.stdout()),
        faults_out: StdSink::new(rt.stderr()),
        keeper,
        disk,
        entropy: OsEntropy::new(rt),
        clock: OsClock::new(rt),
        peer: TcpPeer::new(rt),
    };
    let status = run(rt.alloc(), command, &mut outside);
    (status, outside.keeper)
}

// Opens the store first and then the key file, and runs the command over them. It gives the store back with the status,
// or the status alone where there is no store.
fn run_command(rt: &HostRuntime, places: FrontWords, needs: &Needs) -> Result<(u8, AnyKeeper), u8> {
    let keeper = open_store(rt, places.store, needs.change)?;
    match open_key(rt, places.key, needs) {
        Ok(disk) => Ok(run_over(rt, places.command, keeper, disk)),
        Err(refusal) => Ok((refuse(rt, refusal), keeper)),
    }
}

// The words of a call by their places, of which a command has at least one word.
fn places_of<'a>(rt: &HostRuntime, words: &'a [String]) -> Result<FrontWords<'a>, u8> {
    match after_places(words) {
        Some(places) if !places.command.is_empty() => Ok(places),
        _ => Err(refuse(rt, Refusal::Words)),
    }
}

// Runs what the words ask for, up to where a desk is ready.
fn start(rt: &HostRuntime, places: FrontWords) -> Result<(u8, AnyKeeper), u8> {
    match needs_of(rt.alloc(), places.command) {
        Ok(needs) => run_command(rt, places, &needs),
        Err(refusal) => Err(refuse(rt, refusal)),
    }
}

// The handles for threads, and for a port that is listened at, are those of this function alone, and so a desk is
// served here.
fn main(rt: HostRuntime) -> ExitCode {
    let words = match words_of(&rt) {
        Ok(words) => words,
        Err(refusal) => return ExitCode::from(refuse(&rt, refusal)),
    };
    let places = match places_of(&rt, words.as_slice()) {
        Ok(places) => places,
        Err(status) => return ExitCode::from(status),
    };
    let asked = match desk_of(&rt, places.command) {
        Ok(asked) => asked,
        Err(status) => return ExitCode::from(status),
    };
    let (status, keeper) = match start(&rt, places) {
        Ok(ran) => ran,
        Err(status) => return ExitCode::from(status),
    };
    let (status, keeper) = match asked {
        Some(asked) if status == 0 => {
            hint_at_desk(&rt);
            let (keeper, served) = serve_asked(&rt, rt.alloc(), keeper, &asked);
            (say_end(rt.stdout(), rt.stderr(), &served.end), keeper)
        }
        _ => (status, keeper),
    };
    ExitCode::from(end_store(&rt, keeper, status))
}
