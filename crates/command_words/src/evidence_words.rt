//! The words of `evidence-make`.

ghost use Rattle.std.specs.Prelude.{◌≡◌, ◌↔◌, ℕ, List, Some, codes, map};
ghost use Rattle.std.specs.Prelude.{string_bytes, IfOk, IsErrOf, IfSome, IfNone, OnOk};
ghost use Rattle.clap.specs.Words.{app_of, first_of, found_of, matches_of, rows_of};
ghost use Rattle.evidence.specs.Dossiers.{bytes_in};
ghost use Rattle.command_words.specs.Commands.{IsKey, IsTarget, evidence_app};
ghost use Rattle.command_words.specs.FirstWords.{AsksFor, AsksForNone};
ghost use Rattle.command_words.specs.Grammars.{Takes};
ghost use Rattle.command_words.specs.declared.commands.CommandName.TheVariants as name;

use crate::approving::target_at;
use crate::arguments::{bare_command, positional, take_words, value_in, with_argument};
use crate::commands::Command;
use crate::words_fault::WordsFault;
use clap::ArgMatches;
use evidence::PublicBytes;
use git_object::ObjectId;
use octets::Octets;
use std::alloc::{AllocError, Global};

fn evidence_command<'a>(alloc: Global) -> Result<clap::Command<'a>, AllocError>
    ensures { IfOk result (λ c. app_of c ≡ evidence_app) }
{
    let command = with_argument(
        bare_command(alloc, "evidence-make"),
        positional(alloc, "key"),
    )?;
    let command = with_argument(command, positional(alloc, "left"))?;
    with_argument(command, positional(alloc, "right"))
}

// What `evidence-make` finds in the words after it.
fn take_evidence<'a>(alloc: Global, words: &'a [String]) -> Result<ArgMatches<'a>, WordsFault>
    ensures taken { OnOk result (Takes evidence_app (map string_bytes words.entry.now)) }
    ensures rows { IfOk result (λ m. rows_of (found_of m)
        ≡ matches_of evidence_app (map string_bytes words.entry.now)) }
    ensures outside { IsErrOf result WordsFault.Outside
        → Takes evidence_app (map string_bytes words.entry.now) → ⊥ }
{
    let Ok(command) = evidence_command(alloc) else {
        return Err(WordsFault::Memory);
    };
    take_words(command, words)
}

// The key that a text writes; None where it writes none.
fn key_at(text: &str) -> Option<PublicBytes>
    ensures found { IfSome result (λ key. IsKey (Some text.now) (bytes_in key)) }
    ensures none { IfNone result ((key : List ℕ) → IsKey (Some text.now) key → ⊥) }
{
    let Some(key) = PublicBytes::from_hex(text.as_bytes()) else {
        return None;
    };
    Some(key)
}

// The key that is given; None where none is.
fn key_in(matches: &ArgMatches) -> Option<PublicBytes>
    ensures found { IfSome result (λ key. IsKey (first_of (codes "key") (rows_of (found_of matches.now)))
        (bytes_in key)) }
    ensures none { IfNone result ((key : List ℕ)
        → IsKey (first_of (codes "key") (rows_of (found_of matches.now))) key → ⊥) }
{
    key_at(value_in(matches, "key")?)
}

// The id that is given under this name; None where none is.
fn id_in(matches: &ArgMatches, name: &str) -> Option<ObjectId>
    ensures found { IfSome result (λ id. IsTarget (first_of name.now (rows_of (found_of matches.now))) id) }
    ensures none { IfNone result ((id : List ℕ) → IsTarget (first_of name.now (rows_of (found_of matches.now)))
        id → ⊥) }
{
    target_at(value_in(matches, name)?)
}

/// The command of the words after `evidence-make`. `Outside` comes exactly where they ask for none, want of memory
/// aside.
pub(crate) fn read_evidence(alloc: Global, words: &[String]) -> Result<Command, WordsFault>
    ensures found { IfOk result (AsksFor name.EvidenceMake (map string_bytes words.now)) }
    ensures outside { IsErrOf result WordsFault.Outside → AsksForNone name.EvidenceMake (map string_bytes words.now) }
{
    let matches = take_evidence(alloc, words)?;
    let Some(key) = key_in(&matches) else {
        return Err(WordsFault::Outside);
    };
    let Some(left) = id_in(&matches, "left") else {
        return Err(WordsFault::Outside);
    };
    let Some(right) = id_in(&matches, "right") else {
        return Err(WordsFault::Outside);
    };
    let Ok(public) = Octets::from_slice(alloc, key.as_slice()) else {
        return Err(WordsFault::Memory);
    };
    Ok(Command::EvidenceMake {
        public,
        left,
        right,
    })
}
