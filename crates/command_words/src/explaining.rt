//! The words of `explain`.

ghost use Rattle.std.specs.Prelude.{◌≡◌, ℕ, List, codes, map, string_bytes, IfOk, IfSome, IfNone, IsErrOf};
ghost use Rattle.std.specs.Option.{IsSomeAnd};
ghost use Rattle.clap.specs.Words.{app_of, first_of, found_of, rows_of};
ghost use Rattle.ref_patterns.specs.declared.space.Space.{Space};
ghost use Rattle.command_words.specs.Spaced.{IsSpaced};
ghost use Rattle.command_words.specs.Commands.{explain_app};
ghost use Rattle.command_words.specs.FirstWords.{AsksFor, AsksForNone};
ghost use Rattle.command_words.specs.declared.commands.CommandName.TheVariants as name;

use crate::arguments::{bare_command, positional, take_words, value_in, with_argument};
use crate::commands::Command;
use crate::split_space;
use crate::words_fault::WordsFault;
use clap::ArgMatches;
use octets::Octets;
use ref_patterns::Space;
use std::alloc::{AllocError, Global};

fn explain_command<'a>(alloc: Global) -> Result<clap::Command<'a>, AllocError>
    ensures { IfOk result (λ c. app_of c ≡ explain_app) }
{
    with_argument(bare_command(alloc, "explain"), positional(alloc, "name"))
}

// The space and the name; None where none is given.
fn spaced_in<'a>(matches: &ArgMatches<'a>) -> Option<(Space, &'a [u8])>
    ensures found { IfSome result (λ found. IsSomeAnd (first_of (codes "name") (rows_of (found_of matches.now)))
        (λ text. IsSpaced text found.0 found.1.now)) }
    ensures none { IfNone result ((space : Space) (rest : List ℕ)
        → IsSomeAnd (first_of (codes "name") (rows_of (found_of matches.now))) (λ text. IsSpaced text space rest) → ⊥) }
{
    split_space(value_in(matches, "name")?.as_bytes())
}

/// The command of the words after `explain`. `Outside` comes exactly where they ask for none, want of memory aside.
pub(crate) fn read_explain(alloc: Global, words: &[String]) -> Result<Command, WordsFault>
    ensures found { IfOk result (AsksFor name.Explain (map string_bytes words.now)) }
    ensures outside { IsErrOf result WordsFault.Outside → AsksForNone name.Explain (map string_bytes words.now) }
{
    let Ok(command) = explain_command(alloc) else {
        return Err(WordsFault::Memory);
    };
    let matches = take_words(command, words)?;
    let Some((space, text)) = spaced_in(&matches) else {
        return Err(WordsFault::Outside);
    };
    match Octets::from_slice(alloc, text) {
        Ok(text) => Ok(Command::Explain { space, text }),
        Err(_) => Err(WordsFault::Memory),
    }
}
