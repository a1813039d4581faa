//! A reference among the words of a command: any but the log's own.

ghost use Rattle.std.specs.Prelude.{◌≡◌, ℕ, List, codes, map, string_bytes, IfOk, IsErrOf, OnOk};
ghost use Rattle.clap.specs.Words.{app_of, first_of, found_of, matches_of, rows_of};
ghost use Rattle.command_words.specs.Commands.{AsksReference, IsAsked, reference_app};
ghost use Rattle.command_words.specs.Grammars.{Takes};

use crate::arguments::{bare_command, positional, take_words, value_in, with_argument};
use crate::words_fault::WordsFault;
use clap::ArgMatches;
use git_object::{LOG_NAME, RefFault, RefName};
use std::alloc::{AllocError, Global};

/// The reference that is asked for: any but the log's own. What is none is `Outside`, and takes no memory.
pub(crate) fn reference_in(alloc: Global, matches: &ArgMatches) -> Result<RefName, WordsFault>
    ensures found { IfOk result (IsAsked (first_of (codes "ref") (rows_of (found_of matches.now)))) }
    ensures outside { IsErrOf result WordsFault.Outside → (name : List ℕ)
        → IsAsked (first_of (codes "ref") (rows_of (found_of matches.now))) name → ⊥ }
    ensures memory { IsErrOf result WordsFault.Memory → (name : List ℕ)
        × IsAsked (first_of (codes "ref") (rows_of (found_of matches.now))) name }
{
    let Some(text) = value_in(matches, "ref") else {
        return Err(WordsFault::Outside);
    };
    if text.as_bytes() == LOG_NAME {
        return Err(WordsFault::Outside);
    }
    match RefName::read(alloc, text.as_bytes()) {
        Ok(name) => Ok(name),
        Err(RefFault::BadRef) => Err(WordsFault::Outside),
        Err(RefFault::Memory) => Err(WordsFault::Memory),
    }
}

// A command of this name that takes a reference.
fn reference_command<'a>(alloc: Global, command: &'a str) -> Result<clap::Command<'a>, AllocError>
    ensures { IfOk result (λ c. app_of c ≡ reference_app command.entry.now) }
{
    with_argument(bare_command(alloc, command), positional(alloc, "ref"))
}

// What such a command finds in the words after its name.
fn take_reference<'a>(
    alloc: Global,
    command: &'a str,
    words: &'a [String],
) -> Result<ArgMatches<'a>, WordsFault>
    ensures taken { OnOk result (Takes (reference_app command.entry.now) (map string_bytes words.entry.now)) }
    ensures rows { IfOk result (λ m. rows_of (found_of m) ≡ matches_of (reference_app command.entry.now)
        (map string_bytes words.entry.now)) }
    ensures outside { IsErrOf result WordsFault.Outside
        → Takes (reference_app command.entry.now) (map string_bytes words.entry.now) → ⊥ }
{
    let Ok(command) = reference_command(alloc, command) else {
        return Err(WordsFault::Memory);
    };
    take_words(command, words)
}

/// The reference that the words after the name of such a command name. `Outside` comes exactly where they name none,
/// want of memory aside.
pub(crate) fn read_reference(
    alloc: Global,
    command: &str,
    words: &[String],
) -> Result<RefName, WordsFault>
    ensures found { IfOk result (λ name. AsksReference command.now name (map string_bytes words.now)) }
    ensures outside { IsErrOf result WordsFault.Outside → (name : List ℕ)
        → AsksReference command.now name (map string_bytes words.now) → ⊥ }
{
    let matches = take_reference(alloc, command, words)?;
    reference_in(alloc, &matches)
}
