//! The commands of the program as `clap` knows them.

use clap::error::ErrorKind;
use clap::{Arg, ArgAction, ArgMatches, Command};
use command_words::WordsFault;
use std::alloc::{AllocError, Global};

// A command with the option `--root`, and with no flags for help and version.
fn rooted<'a>(alloc: Global, name: &'a str) -> Result<Command<'a>, AllocError> {
    Command::new(alloc, name)
        .no_binary_name(true)
        .disable_help_flag(true)
        .disable_version_flag(true)
        .disable_help_subcommand(true)
        .arg(Arg::new(alloc, "root").long("root").action(ArgAction::Set))
}

pub(crate) fn log_command<'a>(alloc: Global) -> Result<Command<'a>, AllocError> {
    rooted(alloc, "log")?.arg(Arg::new(alloc, "from").long("from").action(ArgAction::Set))
}

pub(crate) fn verdicts_command<'a>(alloc: Global) -> Result<Command<'a>, AllocError> {
    rooted(alloc, "verdicts")?.arg(
        Arg::new(alloc, "ref")
            .action(ArgAction::Append)
            .num_args(0..),
    )
}

/// A command with the options `--root` and `--key`.
pub(crate) fn keyed<'a>(alloc: Global, name: &'a str) -> Result<Command<'a>, AllocError> {
    let key = Arg::new(alloc, "key").long("key").action(ArgAction::Set);
    rooted(alloc, name)?.arg(key.required(true))
}

pub(crate) fn would_command<'a>(alloc: Global) -> Result<Command<'a>, AllocError> {
    let annotate = Arg::new(alloc, "annotate").long("annotate");
    keyed(alloc, "would")?
        .arg(annotate.action(ArgAction::Set))?
        .arg(Arg::new(alloc, "ref").action(ArgAction::Set).required(true))?
        .arg(Arg::new(alloc, "target").action(ArgAction::Set))
}

pub(crate) fn policy_command<'a>(alloc: Global) -> Result<Command<'a>, AllocError> {
    let against = Arg::new(alloc, "against").long("against");
    let at = Arg::new(alloc, "at").long("at");
    rooted(alloc, "policy")?
        .arg(against.action(ArgAction::Set))?
        .arg(at.action(ArgAction::Set))
}

/// What a command finds in the words.
pub(crate) fn matches_of<'a>(
    command: Result<Command<'a>, AllocError>,
    words: &'a [String],
) -> Result<ArgMatches<'a>, WordsFault> {
    let Ok(command) = command else {
        return Err(WordsFault::Memory);
    };
    match command.try_get_matches_from(words) {
        Ok(matches) => Ok(matches),
        Err(error) => {
            if error.kind() == ErrorKind::OutOfMemory {
                return Err(WordsFault::Memory);
            }
            Err(WordsFault::Outside)
        }
    }
}
