//! The words of `verify-global`.

ghost use Rattle.std.specs.Prelude.{◌≡◌, ℕ, List, Option, codes, map, string_bytes, IfOk, IsErrOf, OnOk};
ghost use Rattle.clap.specs.Words.{app_of, first_of, found_of, matches_of, rows_of};
ghost use Rattle.command_words.specs.Commands.{IsJudged, verify_global_app};
ghost use Rattle.command_words.specs.FirstWords.{AsksFor, AsksForNone};
ghost use Rattle.command_words.specs.Grammars.{Takes};
ghost use Rattle.command_words.specs.declared.commands.CommandName.TheVariants as name;

use crate::arguments::{bare_command, option, positional, take_words, with_argument};
use crate::commands::Command;
use crate::references::reference_in;
use crate::verify_ref::root_in;
use crate::words_fault::WordsFault;
use clap::ArgMatches;
use git_object::RefName;
use std::alloc::{AllocError, Global};

fn verify_global_command<'a>(alloc: Global) -> Result<clap::Command<'a>, AllocError>
    ensures { IfOk result (λ c. app_of c ≡ verify_global_app) }
{
    let command = with_argument(
        bare_command(alloc, "verify-global"),
        positional(alloc, "ref"),
    )?;
    with_argument(command, option(alloc, "root"))
}

// What `verify-global` finds in the words after it.
fn take_verify_global<'a>(alloc: Global, words: &'a [String]) -> Result<ArgMatches<'a>, WordsFault>
    ensures taken { OnOk result (Takes verify_global_app (map string_bytes words.entry.now)) }
    ensures rows { IfOk result (λ m. rows_of (found_of m) ≡ matches_of verify_global_app
        (map string_bytes words.entry.now)) }
    ensures outside { IsErrOf result WordsFault.Outside
        → Takes verify_global_app (map string_bytes words.entry.now) → ⊥ }
{
    let Ok(command) = verify_global_command(alloc) else {
        return Err(WordsFault::Memory);
    };
    take_words(command, words)
}

// The reference that is asked for: any but the log's own and the policy's.
fn judged_in(alloc: Global, matches: &ArgMatches) -> Result<RefName, WordsFault>
    ensures found { IfOk result (IsJudged (first_of (codes "ref") (rows_of (found_of matches.now)))) }
    ensures outside { IsErrOf result WordsFault.Outside → (name : List ℕ)
        → IsJudged (first_of (codes "ref") (rows_of (found_of matches.now))) name → ⊥ }
{
    let name = reference_in(alloc, matches)?;
    if name.is_policy() {
        return Err(WordsFault::Outside);
    }
    Ok(name)
}

/// The command of the words after `verify-global`. `Outside` comes exactly where they ask for none, want of memory
/// aside.
pub(crate) fn read_verify_global(alloc: Global, words: &[String]) -> Result<Command, WordsFault>
    ensures found { IfOk result (AsksFor name.VerifyGlobal (map string_bytes words.now)) }
    ensures outside { IsErrOf result WordsFault.Outside → AsksForNone name.VerifyGlobal (map string_bytes words.now) }
{
    let matches = take_verify_global(alloc, words)?;
    let name = judged_in(alloc, &matches)?;
    let root = root_in(alloc, &matches)?;
    Ok(Command::VerifyGlobal { name, root })
}
