//! Words into a command.

ghost use Rattle.std.specs.Prelude.{map, string_bytes, IfOk, IsErrOf};
ghost use Rattle.command_words.specs.FirstWords.{AreNamed, AsksFor, AsksForNone, IsCommand, IsNoCommand};
ghost use Rattle.command_words.specs.FirstWords.{IsWithinLimits};

use crate::annotating::read_annotate;
use crate::approving::read_approve;
use crate::bare_words::read_no_more;
use crate::commands::{Command, CommandName};
use crate::demonstrating::read_demo;
use crate::evidence_words::read_evidence;
use crate::explaining::read_explain;
use crate::first_words::{named, split_first};
use crate::key_types::read_key_gen;
use crate::pushing::read_push;
use crate::references::read_reference;
use crate::sealing::read_seal;
use crate::serving::read_serve;
use crate::verify_global::read_verify_global;
use crate::verify_ref::read_verify_ref;
use crate::words_fault::WordsFault;
use std::alloc::Global;

// The command for the words after this first one.
fn read_rest(alloc: Global, first: CommandName, words: &[String]) -> Result<Command, WordsFault>
    ensures found { IfOk result (AsksFor first (map string_bytes words.now)) }
    ensures outside { IsErrOf result WordsFault.Outside → AsksForNone first (map string_bytes words.now) }
{
    match first {
        CommandName::VerifyRef => read_verify_ref(alloc, words),
        CommandName::VerifyGlobal => read_verify_global(alloc, words),
        CommandName::Export => {
            read_no_more(alloc, "export", words)?;
            Ok(Command::Export)
        }
        CommandName::Import => {
            read_no_more(alloc, "import", words)?;
            Ok(Command::Import)
        }
        CommandName::KeyGen => read_key_gen(alloc, words),
        CommandName::Log => {
            read_no_more(alloc, "log", words)?;
            Ok(Command::Log)
        }
        CommandName::Record => {
            let name = read_reference(alloc, "record", words)?;
            Ok(Command::Record { name })
        }
        CommandName::Seal => read_seal(alloc, words),
        CommandName::Snapshot => {
            let name = read_reference(alloc, "snapshot", words)?;
            Ok(Command::Snapshot { name })
        }
        CommandName::PolicyApply => {
            read_no_more(alloc, "policy-apply", words)?;
            Ok(Command::PolicyApply)
        }
        CommandName::Explain => read_explain(alloc, words),
        CommandName::Annotate => read_annotate(alloc, words),
        CommandName::Approve => read_approve(alloc, words),
        CommandName::Demo => read_demo(alloc, words),
        CommandName::Mirror => {
            read_no_more(alloc, "mirror", words)?;
            Ok(Command::Mirror)
        }
        CommandName::EvidenceMake => read_evidence(alloc, words),
        CommandName::EvidenceCheck => {
            read_no_more(alloc, "evidence-check", words)?;
            Ok(Command::EvidenceCheck)
        }
        CommandName::Serve => read_serve(alloc, words),
        CommandName::Push => read_push(alloc, words),
    }
}

/// The command that words ask for, whose values are within their limits, and whose reference is not the log's own.
/// `Outside` comes exactly where they ask for none, want of memory aside; want of memory comes only where the first
/// word is the name of a command.
pub fn read_command(alloc: Global, words: &[String]) -> Result<Command, WordsFault>
    ensures found { IfOk result (IsCommand (map string_bytes words.now)) }
    ensures within { IfOk result IsWithinLimits }
    ensures outside { IsErrOf result WordsFault.Outside → IsNoCommand (map string_bytes words.now) }
    ensures memory { IsErrOf result WordsFault.Memory → AreNamed (map string_bytes words.now) }
{
    let Some((word, rest)) = split_first(words) else {
        return Err(WordsFault::Outside);
    };
    let Some(first) = named(word) else {
        return Err(WordsFault::Outside);
    };
    read_rest(alloc, first, rest)
}
