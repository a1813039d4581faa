//! The words of `approve`.

ghost use Rattle.std.specs.Prelude.{◌≡◌, ℕ, List, Some, codes, map, string_bytes, IfOk, IsErrOf, IfSome, IfNone, OnOk};
ghost use Rattle.clap.specs.Words.{app_of, first_of, found_of, matches_of, rows_of};
ghost use Rattle.command_words.specs.Commands.{IsTarget, approve_app};
ghost use Rattle.command_words.specs.FirstWords.{AsksFor, AsksForNone};
ghost use Rattle.command_words.specs.Grammars.{Takes};
ghost use Rattle.command_words.specs.declared.commands.CommandName.TheVariants as name;

use crate::arguments::{bare_command, positional, take_words, value_in, with_argument};
use crate::commands::Command;
use crate::references::reference_in;
use crate::words_fault::WordsFault;
use clap::ArgMatches;
use git_object::ObjectId;
use std::alloc::{AllocError, Global};

fn approve_command<'a>(alloc: Global) -> Result<clap::Command<'a>, AllocError>
    ensures { IfOk result (λ c. app_of c ≡ approve_app) }
{
    let command = with_argument(bare_command(alloc, "approve"), positional(alloc, "ref"))?;
    with_argument(command, positional(alloc, "target"))
}

// What `approve` finds in the words after it.
fn take_approve<'a>(alloc: Global, words: &'a [String]) -> Result<ArgMatches<'a>, WordsFault>
    ensures taken { OnOk result (Takes approve_app (map string_bytes words.entry.now)) }
    ensures rows { IfOk result (λ m. rows_of (found_of m) ≡ matches_of approve_app (map string_bytes words.entry.now)) }
    ensures outside { IsErrOf result WordsFault.Outside → Takes approve_app (map string_bytes words.entry.now) → ⊥ }
{
    let Ok(command) = approve_command(alloc) else {
        return Err(WordsFault::Memory);
    };
    take_words(command, words)
}

// The id that a text writes; None where it writes none.
pub(crate) fn target_at(text: &str) -> Option<ObjectId>
    ensures found { IfSome result (λ id. IsTarget (Some text.now) id) }
    ensures none { IfNone result ((id : List ℕ) → IsTarget (Some text.now) id → ⊥) }
{
    let Some(id) = ObjectId::from_hex(text.as_bytes()) else {
        return None;
    };
    Some(id)
}

// The id that is given; None where none is.
fn target_in(matches: &ArgMatches) -> Option<ObjectId>
    ensures found { IfSome result (λ id. IsTarget (first_of (codes "target") (rows_of (found_of matches.now))) id) }
    ensures none { IfNone result ((id : List ℕ) → IsTarget (first_of (codes "target") (rows_of (found_of matches.now)))
        id → ⊥) }
{
    target_at(value_in(matches, "target")?)
}

/// The command of the words after `approve`. `Outside` comes exactly where they ask for none, want of memory aside.
pub(crate) fn read_approve(alloc: Global, words: &[String]) -> Result<Command, WordsFault>
    ensures found { IfOk result (AsksFor name.Approve (map string_bytes words.now)) }
    ensures outside { IsErrOf result WordsFault.Outside → AsksForNone name.Approve (map string_bytes words.now) }
{
    let matches = take_approve(alloc, words)?;
    let Some(target) = target_in(&matches) else {
        return Err(WordsFault::Outside);
    };
    let name = reference_in(alloc, &matches)?;
    Ok(Command::Approve { name, target })
}
