//! The words of `demo`.

ghost use Rattle.std.specs.Prelude.{◌≡◌, ℕ, codes, map, string_bytes, IfOk, IfSome, IfNone, IsErrOf};
ghost use Rattle.std.specs.Option.{IsSomeAnd};
ghost use Rattle.clap.specs.Words.{app_of, first_of, found_of, rows_of};
ghost use Rattle.command_words.specs.Numbers.{IsCount};
ghost use Rattle.command_words.specs.Commands.{demo_app};
ghost use Rattle.command_words.specs.FirstWords.{AsksFor, AsksForNone};
ghost use Rattle.command_words.specs.declared.commands.CommandName.TheVariants as name;

use crate::arguments::{bare_command, positional, take_words, value_in, with_argument};
use crate::commands::Command;
use crate::read_count;
use crate::words_fault::WordsFault;
use clap::ArgMatches;
use std::alloc::{AllocError, Global};

/// The most changes of a demonstration.
const MOST_CHANGES: u32 = 500;

fn demo_command<'a>(alloc: Global) -> Result<clap::Command<'a>, AllocError>
    ensures { IfOk result (λ c. app_of c ≡ demo_app) }
{
    with_argument(bare_command(alloc, "demo"), positional(alloc, "count"))
}

// The number of changes; None where none is given.
fn count_in(matches: &ArgMatches) -> Option<u32>
    ensures found { IfSome result (λ count. IsSomeAnd (first_of (codes "count") (rows_of (found_of matches.now)))
        (λ text. IsCount 500 text count)) }
    ensures none { IfNone result ((count : ℕ) → IsSomeAnd (first_of (codes "count") (rows_of (found_of matches.now)))
        (λ text. IsCount 500 text count) → ⊥) }
{
    read_count(value_in(matches, "count")?.as_bytes(), MOST_CHANGES)
}

/// The command of the words after `demo`. `Outside` comes exactly where they ask for none, want of memory aside.
pub(crate) fn read_demo(alloc: Global, words: &[String]) -> Result<Command, WordsFault>
    ensures found { IfOk result (AsksFor name.Demo (map string_bytes words.now)) }
    ensures outside { IsErrOf result WordsFault.Outside → AsksForNone name.Demo (map string_bytes words.now) }
{
    let Ok(command) = demo_command(alloc) else {
        return Err(WordsFault::Memory);
    };
    let matches = take_words(command, words)?;
    let Some(count) = count_in(&matches) else {
        return Err(WordsFault::Outside);
    };
    Ok(Command::Demo { count })
}
