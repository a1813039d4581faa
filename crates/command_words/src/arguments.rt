//! What the commands share of `clap`: building a command, taking words, and the values of an argument.

ghost use Rattle.std.specs.Prelude.{◌≡◌, true, false, map, option_map, string_bytes, IfOk, IsErrOf, OnOk};
ghost use Rattle.clap.specs.Words.{app_of, first_of, found_of, is_simple_and_free, matches_of, rows_of, rule_of};
ghost use Rattle.clap.specs.Words.{with_rule};
ghost use Rattle.command_words.specs.Grammars.{Takes, bare_app, flag_rule, is_yes, option_rule, positional_rule};

use crate::words_fault::WordsFault;
use clap::error::ErrorKind;
use clap::{Arg, ArgAction, ArgMatches, Command};
use std::alloc::{AllocError, Global};

/// A command with no argument yet, without flags for help and version.
pub(crate) fn bare_command<'a>(alloc: Global, name: &'a str) -> Command<'a>
    ensures { app_of result ≡ bare_app name.entry.now }
{
    Command::new(alloc, name)
        .no_binary_name(true)
        .disable_help_flag(true)
        .disable_version_flag(true)
        .disable_help_subcommand(true)
}

/// A positional that must be there.
pub(crate) fn positional<'a>(alloc: Global, id: &'a str) -> Arg<'a>
    ensures rule { rule_of result ≡ positional_rule id.entry.now }
    ensures local { result.global ≡ false }
{
    Arg::new(alloc, id).action(ArgAction::Set).required(true)
}

/// An option with a value, `--name value` or `--name=value`.
pub(crate) fn option<'a>(alloc: Global, name: &'a str) -> Arg<'a>
    ensures rule { rule_of result ≡ option_rule name.entry.now }
    ensures local { result.global ≡ false }
{
    Arg::new(alloc, name).long(name).action(ArgAction::Set)
}

/// A flag, `--name`.
pub(crate) fn flag<'a>(alloc: Global, name: &'a str) -> Arg<'a>
    ensures rule { rule_of result ≡ flag_rule name.entry.now }
    ensures local { result.global ≡ false }
{
    Arg::new(alloc, name).long(name).action(ArgAction::SetTrue)
}

/// The command with one argument more.
pub(crate) fn with_argument<'a>(
    command: Command<'a>,
    argument: Arg<'a>,
) -> Result<Command<'a>, AllocError>
    requires { argument.global ≡ false }
    ensures { IfOk result (λ c. app_of c ≡ with_rule (app_of command.entry) (rule_of argument.entry)) }
{
    command.arg(argument)
}

/// What a command finds in the words. `Outside` comes exactly where it does not take them, want of memory aside.
pub(crate) fn take_words<'a>(
    command: Command<'a>,
    words: &'a [String],
) -> Result<ArgMatches<'a>, WordsFault>
    requires { is_simple_and_free (app_of command) ≡ true }
    ensures taken { OnOk result (Takes (app_of command.entry) (map string_bytes words.entry.now)) }
    ensures rows { IfOk result (λ m. rows_of (found_of m) ≡ matches_of (app_of command.entry)
        (map string_bytes words.entry.now)) }
    ensures outside { IsErrOf result WordsFault.Outside
        → Takes (app_of command.entry) (map string_bytes words.entry.now) → ⊥ }
{
    match command.try_get_matches_from(words) {
        Ok(matches) => Ok(matches),
        Err(error) => {
            if error.kind() == ErrorKind::OutOfMemory {
                return Err(WordsFault::Memory);
            }
            Err(WordsFault::Outside)
        }
    }
}

/// The value that is given for an argument.
pub(crate) fn value_in<'a>(matches: &ArgMatches<'a>, id: &str) -> Option<&'a str>
    ensures { option_map (λ t. t.now) result ≡ first_of id.now (rows_of (found_of matches.now)) }
{
    matches.get_str(id)
}

/// Whether a flag is given.
pub(crate) fn has_flag(matches: &ArgMatches, id: &str) -> bool
    ensures { result ≡ is_yes (first_of id.now (rows_of (found_of matches.now))) }
{
    match value_in(matches, id) {
        Some(text) => text == "true",
        None => false,
    }
}
