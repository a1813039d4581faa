//! Laws over the grammar of words.

ghost use Rattle.command_words.specs.Laws.{OneCommand, PlainWords};

/// The same words ask for one command at most.
pub fn one_command()
    ensures { OneCommand }
{}

/// The plain words of each command ask for it, and so does `verify-ref` with `--stdin` before or behind the name, or
/// with the ids of a root behind it.
pub fn plain_words()
    ensures { PlainWords }
{}
