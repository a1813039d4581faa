//! The words of `seal`.

ghost use Rattle.std.specs.Prelude.{◌≡◌, map, string_bytes, IfOk, IsErrOf};
ghost use Rattle.clap.specs.Words.{app_of};
ghost use Rattle.command_words.specs.Commands.{seal_app};
ghost use Rattle.command_words.specs.FirstWords.{AsksFor, AsksForNone};
ghost use Rattle.command_words.specs.declared.commands.CommandName.TheVariants as name;

use crate::arguments::{bare_command, flag, has_flag, take_words, with_argument};
use crate::commands::Command;
use crate::words_fault::WordsFault;
use std::alloc::{AllocError, Global};

fn seal_command<'a>(alloc: Global) -> Result<clap::Command<'a>, AllocError>
    ensures { IfOk result (λ c. app_of c ≡ seal_app) }
{
    with_argument(bare_command(alloc, "seal"), flag(alloc, "add"))
}

/// The command of the words after `seal`. `Outside` comes exactly where they ask for none, want of memory aside.
pub(crate) fn read_seal(alloc: Global, words: &[String]) -> Result<Command, WordsFault>
    ensures found { IfOk result (AsksFor name.Seal (map string_bytes words.now)) }
    ensures outside { IsErrOf result WordsFault.Outside → AsksForNone name.Seal (map string_bytes words.now) }
{
    let Ok(command) = seal_command(alloc) else {
        return Err(WordsFault::Memory);
    };
    let matches = take_words(command, words)?;
    Ok(Command::Seal {
        add: has_flag(&matches, "add"),
    })
}
