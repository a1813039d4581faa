//! The words of `serve`.

ghost use Rattle.std.specs.Prelude.{◌≡◌, ◌≤◌, ℕ, List, codes, map, string_bytes, IfOk, IfSome, IfNone, IsErrOf, OnOk};
ghost use Rattle.std.specs.Option.{IsSomeAnd};
ghost use Rattle.clap.specs.Words.{app_of, first_of, found_of, matches_of, rows_of};
ghost use Rattle.command_words.specs.Numbers.{IsCount};
ghost use Rattle.command_words.specs.Commands.{serve_app};
ghost use Rattle.command_words.specs.FirstWords.{AsksFor, AsksForNone};
ghost use Rattle.command_words.specs.Grammars.{Takes};
ghost use Rattle.command_words.specs.declared.commands.CommandName.TheVariants as name;

use crate::arguments::{
    bare_command, flag, has_flag, positional, take_words, value_in, with_argument,
};
use crate::commands::Command;
use crate::read_count;
use crate::words_fault::WordsFault;
use clap::ArgMatches;
use std::alloc::{AllocError, Global};

/// The greatest number of a port.
const GREATEST_PORT: u32 = 65_535;
/// The most workers of a desk.
const MOST_WORKERS: u32 = 64;
/// The most connections that a worker of a desk serves.
const MOST_CONNECTIONS: u32 = 1_000_000;

fn serve_command<'a>(alloc: Global) -> Result<clap::Command<'a>, AllocError>
    ensures { IfOk result (λ c. app_of c ≡ serve_app) }
{
    let command = with_argument(bare_command(alloc, "serve"), positional(alloc, "port"))?;
    let command = with_argument(command, positional(alloc, "workers"))?;
    let command = with_argument(command, positional(alloc, "connections"))?;
    with_argument(command, flag(alloc, "gate"))
}

// What `serve` finds in the words after it.
fn take_serve<'a>(alloc: Global, words: &'a [String]) -> Result<ArgMatches<'a>, WordsFault>
    ensures taken { OnOk result (Takes serve_app (map string_bytes words.entry.now)) }
    ensures rows { IfOk result (λ m. rows_of (found_of m)
        ≡ matches_of serve_app (map string_bytes words.entry.now)) }
    ensures outside { IsErrOf result WordsFault.Outside
        → Takes serve_app (map string_bytes words.entry.now) → ⊥ }
{
    let Ok(command) = serve_command(alloc) else {
        return Err(WordsFault::Memory);
    };
    take_words(command, words)
}

/// The number from 1 to `most` that is given under this name; None where none is given.
pub(crate) fn number_in(matches: &ArgMatches, id: &str, most: u32) -> Option<u32>
    ensures few { IfSome result (λ count. count ≤ most) }
    ensures found { IfSome result (λ count. IsSomeAnd (first_of id.now (rows_of (found_of matches.now)))
        (λ text. IsCount most text count)) }
    ensures none { IfNone result ((count : ℕ) → IsSomeAnd (first_of id.now (rows_of (found_of matches.now)))
        (λ text. IsCount most text count) → ⊥) }
{
    read_count(value_in(matches, id)?.as_bytes(), most)
}

/// The port that is given; None where none is.
pub(crate) fn port_in(matches: &ArgMatches) -> Option<u16>
    ensures found { IfSome result (λ port. IsSomeAnd (first_of (codes "port") (rows_of (found_of matches.now)))
        (λ text. IsCount 65535 text port)) }
    ensures none { IfNone result ((port : ℕ) → IsSomeAnd (first_of (codes "port") (rows_of (found_of matches.now)))
        (λ text. IsCount 65535 text port) → ⊥) }
{
    let port = number_in(matches, "port", GREATEST_PORT)?;
    Some(port as u16)
}

/// The command of the words after `serve`. `Outside` comes exactly where they ask for none, want of memory aside.
pub(crate) fn read_serve(alloc: Global, words: &[String]) -> Result<Command, WordsFault>
    ensures found { IfOk result (AsksFor name.Serve (map string_bytes words.now)) }
    ensures outside { IsErrOf result WordsFault.Outside → AsksForNone name.Serve (map string_bytes words.now) }
{
    let matches = take_serve(alloc, words)?;
    let Some(port) = port_in(&matches) else {
        return Err(WordsFault::Outside);
    };
    let Some(workers) = number_in(&matches, "workers", MOST_WORKERS) else {
        return Err(WordsFault::Outside);
    };
    let Some(connections) = number_in(&matches, "connections", MOST_CONNECTIONS) else {
        return Err(WordsFault::Outside);
    };
    Ok(Command::Serve {
        port,
        workers,
        connections,
        gate: has_flag(&matches, "gate"),
    })
}
