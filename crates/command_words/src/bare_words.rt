//! The words of a command that takes none after its name.

ghost use Rattle.std.specs.Prelude.{map, string_bytes, IsErrOf, OnOk};
ghost use Rattle.command_words.specs.Grammars.{Takes, bare_app};

use crate::arguments::{bare_command, take_words};
use crate::words_fault::WordsFault;
use std::alloc::Global;

/// Whether a command without arguments takes the words after its name. `Outside` comes exactly where it does
/// not, want of memory aside.
pub(crate) fn read_no_more(alloc: Global, name: &str, words: &[String]) -> Result<(), WordsFault>
    ensures taken { OnOk result (Takes (bare_app name.now) (map string_bytes words.now)) }
    ensures outside { IsErrOf result WordsFault.Outside → Takes (bare_app name.now) (map string_bytes words.now) → ⊥ }
{
    let _matches = take_words(bare_command(alloc, name), words)?;
    Ok(())
}
