//! Whether the words ask for a desk.

ghost use Rattle.std.specs.Prelude.{IfOk, IfSome};
ghost use Rattle.program_desk.specs.Numbers.{AreWithin};

use program_desk::{ServeWords, serve_words};
use program_stores::refuse;

/// The numbers of the desk that the words ask for, and none where they ask for none; else the program's status. It is
/// asked before the command runs: so nothing was done, and nothing printed, where memory is wanting for it.
pub(crate) fn desk_of(rt: &HostRuntime, command: &[String]) -> Result<Option<ServeWords>, u8>
    ensures { IfOk result (λ asked. IfSome asked AreWithin) }
{
    match serve_words(rt.alloc(), command) {
        Ok(asked) => Ok(asked),
        Err(refusal) => Err(refuse(rt.stderr(), &refusal)),
    }
}
