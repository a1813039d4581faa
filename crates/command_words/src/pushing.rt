//! The words of `push`.

ghost use Rattle.std.specs.Prelude.{◌≡◌, ℕ, List, map, string_bytes, IfOk, IsErrOf, OnOk};
ghost use Rattle.clap.specs.Words.{app_of, found_of, matches_of, rows_of};
ghost use Rattle.command_words.specs.Commands.{push_app};
ghost use Rattle.command_words.specs.FirstWords.{AsksFor, AsksForNone};
ghost use Rattle.command_words.specs.Grammars.{Takes};
ghost use Rattle.command_words.specs.declared.commands.CommandName.TheVariants as name;

use crate::arguments::{bare_command, positional, take_words, with_argument};
use crate::commands::Command;
use crate::serving::{number_in, port_in};
use crate::words_fault::WordsFault;
use clap::ArgMatches;
use std::alloc::{AllocError, Global};

/// The greatest number of an entry.
const GREATEST_NUMBER: u32 = 1_000_000;

fn push_command<'a>(alloc: Global) -> Result<clap::Command<'a>, AllocError>
    ensures { IfOk result (λ c. app_of c ≡ push_app) }
{
    let command = with_argument(bare_command(alloc, "push"), positional(alloc, "port"))?;
    with_argument(command, positional(alloc, "number"))
}

// What `push` finds in the words after it.
fn take_push<'a>(alloc: Global, words: &'a [String]) -> Result<ArgMatches<'a>, WordsFault>
    ensures taken { OnOk result (Takes push_app (map string_bytes words.entry.now)) }
    ensures rows { IfOk result (λ m. rows_of (found_of m)
        ≡ matches_of push_app (map string_bytes words.entry.now)) }
    ensures outside { IsErrOf result WordsFault.Outside
        → Takes push_app (map string_bytes words.entry.now) → ⊥ }
{
    let Ok(command) = push_command(alloc) else {
        return Err(WordsFault::Memory);
    };
    take_words(command, words)
}

/// The command of the words after `push`. `Outside` comes exactly where they ask for none, want of memory aside.
pub(crate) fn read_push(alloc: Global, words: &[String]) -> Result<Command, WordsFault>
    ensures found { IfOk result (AsksFor name.Push (map string_bytes words.now)) }
    ensures outside { IsErrOf result WordsFault.Outside → AsksForNone name.Push (map string_bytes words.now) }
{
    let matches = take_push(alloc, words)?;
    let Some(port) = port_in(&matches) else {
        return Err(WordsFault::Outside);
    };
    let Some(number) = number_in(&matches, "number", GREATEST_NUMBER) else {
        return Err(WordsFault::Outside);
    };
    Ok(Command::Push { port, number })
}
