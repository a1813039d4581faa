//! The words of `annotate`.

ghost use Rattle.std.specs.Prelude.{◌≡◌, ◌≢◌, ℕ, Bool, List, Some, codes, map, string_bytes, IfOk, IfSome, IfNone};
ghost use Rattle.std.specs.Prelude.{IsErrOf, OnOk};
ghost use Rattle.std.specs.Option.{IsSomeAnd};
ghost use Rattle.clap.specs.Words.{app_of, first_of, found_of, matches_of, rows_of};
ghost use Rattle.command_words.specs.Ids.{AreIds};
ghost use Rattle.command_words.specs.Commands.{IsMessage, annotate_app, kind_text};
ghost use Rattle.command_words.specs.FirstWords.{AsksFor, AsksForNone};
ghost use Rattle.command_words.specs.Grammars.{Takes};
ghost use Rattle.command_words.specs.declared.commands.CommandName.TheVariants as name;

use crate::arguments::{bare_command, option, positional, take_words, value_in, with_argument};
use crate::commands::Command;
use crate::first_words::is_word;
use crate::read_object_ids;
use crate::words_fault::WordsFault;
use clap::ArgMatches;
use git_object::Ids;
use octets::Octets;
use std::alloc::{AllocError, Global};

/// The most entries that one annotation lists.
const MOST_ENTRIES: usize = 256;

/// The most bytes of a message.
const LONGEST_MESSAGE: usize = 65_536;

fn annotate_command<'a>(alloc: Global) -> Result<clap::Command<'a>, AllocError>
    ensures { IfOk result (λ c. app_of c ≡ annotate_app) }
{
    let command = with_argument(bare_command(alloc, "annotate"), positional(alloc, "kind"))?;
    let command = with_argument(command, positional(alloc, "ids"))?;
    with_argument(command, option(alloc, "message"))
}

// What `annotate` finds in the words after it.
fn take_annotate<'a>(alloc: Global, words: &'a [String]) -> Result<ArgMatches<'a>, WordsFault>
    ensures taken { OnOk result (Takes annotate_app (map string_bytes words.entry.now)) }
    ensures rows { IfOk result (λ m. rows_of (found_of m) ≡ matches_of annotate_app (map string_bytes words.entry.now)) }
    ensures outside { IsErrOf result WordsFault.Outside → Takes annotate_app (map string_bytes words.entry.now) → ⊥ }
{
    let Ok(command) = annotate_command(alloc) else {
        return Err(WordsFault::Memory);
    };
    take_words(command, words)
}

// Whether a word says that entries are skipped; None where it is neither word.
fn kind_at(text: &str) -> Option<bool>
    ensures found { IfSome result (λ skip. text.now ≡ kind_text skip) }
    ensures none { IfNone result ((skip : Bool) → text.now ≢ kind_text skip) }
{
    if is_word(text, "skip") {
        return Some(true);
    }
    if is_word(text, "note") {
        return Some(false);
    }
    None
}

// Whether the entries are skipped; None where neither word is given.
fn kind_in(matches: &ArgMatches) -> Option<bool>
    ensures found { IfSome result (λ skip. first_of (codes "kind") (rows_of (found_of matches.now))
        ≡ Some (kind_text skip)) }
    ensures none { IfNone result ((skip : Bool) → first_of (codes "kind") (rows_of (found_of matches.now))
        ≢ Some (kind_text skip)) }
{
    kind_at(value_in(matches, "kind")?)
}

// The ids of the entries.
fn ids_in(alloc: Global, matches: &ArgMatches) -> Result<Ids, WordsFault>
    ensures found { IfOk result (λ ids. IsSomeAnd (first_of (codes "ids") (rows_of (found_of matches.now)))
        (λ text. AreIds 256 text ids)) }
    ensures outside { IsErrOf result WordsFault.Outside → (ids : List (List ℕ))
        → IsSomeAnd (first_of (codes "ids") (rows_of (found_of matches.now))) (λ text. AreIds 256 text ids) → ⊥ }
{
    let Some(text) = value_in(matches, "ids") else {
        return Err(WordsFault::Outside);
    };
    match read_object_ids(alloc, text, MOST_ENTRIES) {
        Ok(Some(ids)) => Ok(ids),
        Ok(None) => Err(WordsFault::Outside),
        Err(_) => Err(WordsFault::Memory),
    }
}

// The message, which is empty where none is given.
fn message_in(alloc: Global, matches: &ArgMatches) -> Result<Octets, WordsFault>
    ensures found { IfOk result (IsMessage (first_of (codes "message") (rows_of (found_of matches.now)))) }
    ensures outside { IsErrOf result WordsFault.Outside → (message : List ℕ)
        → IsMessage (first_of (codes "message") (rows_of (found_of matches.now))) message → ⊥ }
{
    let Some(text) = value_in(matches, "message") else {
        return Ok(Octets::new(alloc));
    };
    if text.len() > LONGEST_MESSAGE {
        return Err(WordsFault::Outside);
    }
    match Octets::from_slice(alloc, text.as_bytes()) {
        Ok(message) => Ok(message),
        Err(_) => Err(WordsFault::Memory),
    }
}

/// The command of the words after `annotate`. `Outside` comes exactly where they ask for none, want of memory aside.
pub(crate) fn read_annotate(alloc: Global, words: &[String]) -> Result<Command, WordsFault>
    ensures found { IfOk result (AsksFor name.Annotate (map string_bytes words.now)) }
    ensures outside { IsErrOf result WordsFault.Outside → AsksForNone name.Annotate (map string_bytes words.now) }
{
    let matches = take_annotate(alloc, words)?;
    let Some(skip) = kind_in(&matches) else {
        return Err(WordsFault::Outside);
    };
    let ids = ids_in(alloc, &matches)?;
    let message = message_in(alloc, &matches)?;
    Ok(Command::Annotate { skip, ids, message })
}
