//! The words of `verify-ref`.

ghost use Rattle.std.specs.Prelude.{◌≡◌, ℕ, List, Option, codes, map, string_bytes, IfOk, IsErrOf, OnOk};
ghost use Rattle.clap.specs.Words.{app_of, first_of, found_of, matches_of, rows_of};
ghost use Rattle.command_words.specs.Commands.{IsRoot, verify_ref_app};
ghost use Rattle.command_words.specs.FirstWords.{AsksFor, AsksForNone};
ghost use Rattle.command_words.specs.Grammars.{Takes};
ghost use Rattle.command_words.specs.declared.commands.CommandName.TheVariants as name;

use crate::arguments::{
    bare_command, flag, has_flag, option, positional, take_words, value_in, with_argument,
};
use crate::commands::Command;
use crate::read_key_ids;
use crate::references::reference_in;
use crate::words_fault::WordsFault;
use clap::ArgMatches;
use git_object::KeyId;
use octets::Items;
use std::alloc::{AllocError, Global};

/// The most ids of keys that are given.
const MOST_KEYS: usize = 64;

fn verify_ref_command<'a>(alloc: Global) -> Result<clap::Command<'a>, AllocError>
    ensures { IfOk result (λ c. app_of c ≡ verify_ref_app) }
{
    let command = with_argument(bare_command(alloc, "verify-ref"), positional(alloc, "ref"))?;
    let command = with_argument(command, option(alloc, "root"))?;
    with_argument(command, flag(alloc, "stdin"))
}

// What `verify-ref` finds in the words after it.
fn take_verify_ref<'a>(alloc: Global, words: &'a [String]) -> Result<ArgMatches<'a>, WordsFault>
    ensures taken { OnOk result (Takes verify_ref_app (map string_bytes words.entry.now)) }
    ensures rows { IfOk result (λ m. rows_of (found_of m) ≡ matches_of verify_ref_app
        (map string_bytes words.entry.now)) }
    ensures outside { IsErrOf result WordsFault.Outside → Takes verify_ref_app (map string_bytes words.entry.now) → ⊥ }
{
    let Ok(command) = verify_ref_command(alloc) else {
        return Err(WordsFault::Memory);
    };
    take_words(command, words)
}

/// The ids of keys that are given, if any are.
pub(crate) fn root_in(
    alloc: Global,
    matches: &ArgMatches,
) -> Result<Option<Items<KeyId>>, WordsFault>
    ensures found { IfOk result (IsRoot (first_of (codes "root") (rows_of (found_of matches.now)))) }
    ensures outside { IsErrOf result WordsFault.Outside → (root : Option (List (List ℕ)))
        → IsRoot (first_of (codes "root") (rows_of (found_of matches.now))) root → ⊥ }
{
    let Some(text) = value_in(matches, "root") else {
        return Ok(None);
    };
    match read_key_ids(alloc, text, MOST_KEYS) {
        Ok(Some(ids)) => Ok(Some(ids)),
        Ok(None) => Err(WordsFault::Outside),
        Err(_) => Err(WordsFault::Memory),
    }
}

/// The command of the words after `verify-ref`. `Outside` comes exactly where they ask for none, want of memory aside.
pub(crate) fn read_verify_ref(alloc: Global, words: &[String]) -> Result<Command, WordsFault>
    ensures found { IfOk result (AsksFor name.VerifyRef (map string_bytes words.now)) }
    ensures outside { IsErrOf result WordsFault.Outside → AsksForNone name.VerifyRef (map string_bytes words.now) }
{
    let matches = take_verify_ref(alloc, words)?;
    let name = reference_in(alloc, &matches)?;
    let root = root_in(alloc, &matches)?;
    let stdin = has_flag(&matches, "stdin");
    Ok(Command::VerifyRef { name, root, stdin })
}
