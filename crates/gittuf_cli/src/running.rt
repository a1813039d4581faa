//! The one call that the program makes.

ghost use Rattle.std.specs.Prelude.{◌≡◌, ◌≤◌, map, string_bytes};
ghost use Rattle.command_words.specs.FirstWords.{IsWithinLimits};
ghost use Rattle.worlds.specs.Given.{world_of};
ghost use Rattle.worlds.specs.Running.{CountsFaults};
ghost use Rattle.worlds.specs.Worlds.{ways};
ghost use Rattle.gittuf_cli.specs.Runs.{Ends, EndsOf, Ran, Says};

use crate::key_types::make_key;
use command_words::{Command, WordsFault, read_command};
use commands_approve::approve;
use commands_desk::{push, serve};
use commands_keys::seal;
use commands_log::{annotate, log, record};
use commands_mirror::{evidence_check, evidence_make, mirror};
use commands_policy::{explain, policy_apply};
use commands_snapshot::snapshot;
use commands_stream::{export, import};
use commands_verify::{verify_global, verify_ref};
use demo::demo;
use edge_io::{Clock, Disk, Entropy, Sink, Source, write_all};
use keeper_api::Keeper;
use links::Peer;
use std::alloc::Global;
use worlds::{Ending, Kinds, Lent, Objects, Of, Outside, Refusal};

// Carries a command out, over no object but those that it needs.
fn carry_out<W: Objects>(alloc: Global, command: &Command, outside: &mut Lent<W>) -> Ending
    requires { IsWithinLimits command.now }
    ensures ends { EndsOf ⟦<Of<W> as Objects>⟧.ways command.now (world_of outside.old) (world_of outside.new) result }
    ensures counted { CountsFaults ⟦<Of<W> as Objects>⟧.ways (world_of outside.old) (world_of outside.new) result }
    ensures unsaid { outside.new.faults_out ≡ outside.old.faults_out }
{
    match command {
        Command::VerifyRef { name, root, stdin } => verify_ref::<W>(
            alloc, name, root, *stdin, outside,
        ),
        Command::VerifyGlobal { name, root } => verify_global::<W>(alloc, name, root, outside),
        Command::Export => export::<W>(alloc, outside),
        Command::Import => import::<W>(alloc, outside),
        Command::KeyGen {
            height,
            width,
            bottom,
        } => make_key::<W>(alloc, *height, *width, *bottom, outside),
        Command::Log => log::<W>(alloc, outside),
        Command::Record { name } => record::<W>(alloc, name, outside),
        Command::Seal { add } => seal::<W>(alloc, *add, outside),
        Command::Snapshot { name } => snapshot::<W>(alloc, name, outside),
        Command::PolicyApply => policy_apply::<W>(alloc, outside),
        Command::Explain { space, text } => explain::<W>(alloc, *space, text.as_slice(), outside),
        Command::Annotate { skip, ids, message } => annotate::<W>(
            alloc, ids, *skip, message, outside,
        ),
        Command::Approve { name, target } => approve::<W>(alloc, name, target, outside),
        Command::Demo { count } => demo::<W>(alloc, *count, outside),
        Command::Mirror => mirror::<W>(alloc, outside),
        Command::EvidenceMake {
            public,
            left,
            right,
        } => evidence_make::<W>(alloc, public.as_slice(), left, right, outside),
        Command::EvidenceCheck => evidence_check::<W>(alloc, outside),
        Command::Serve {
            port: _,
            workers: _,
            connections: _,
            gate: _,
        } => serve::<W>(alloc, outside),
        Command::Push { port, number } => push::<W>(alloc, *port, *number as u64, outside),
    }
}

// Does what the words ask for, and prints the answer.
fn obey<W: Objects>(alloc: Global, words: &[String], outside: &mut Lent<W>) -> Ending
    ensures ends { Ends ⟦<Of<W> as Objects>⟧.ways (map string_bytes words.now)
        (world_of outside.old) (world_of outside.new) result }
    ensures counted { CountsFaults ⟦<Of<W> as Objects>⟧.ways (world_of outside.old) (world_of outside.new) result }
    ensures unsaid { outside.new.faults_out ≡ outside.old.faults_out }
{
    let command = match read_command(alloc, words) {
        Ok(command) => command,
        Err(WordsFault::Outside) => {
            return Ending::Refused {
                refusal: Refusal::Words,
            };
        }
        Err(WordsFault::Memory) => {
            return Ending::Refused {
                refusal: Refusal::Memory,
            };
        }
    };
    carry_out::<W>(alloc, &command, outside)
}

// Says why there is no answer, if there is none.
fn say<F: Sink>(ending: &Ending, faults_out: &mut F)
    ensures says { Says (F.contents faults_out.old) (F.contents faults_out.new)
        (F.faults faults_out.old) (F.faults faults_out.new) ending.now }
    ensures later { F.faults faults_out.old ≤ F.faults faults_out.new }
{
    match ending {
        Ending::Done => {}
        Ending::Differs => {}
        Ending::Broken => {}
        Ending::Refused { refusal } => {
            let _ = write_all(faults_out, refusal.line().as_slice());
        }
    }
}

/// Runs the command of the words over the objects outside, and answers the status of the program.
///
/// 0 where the answer was given; 1 where the verdict is another than `accepted`, an entry breaks a global rule, a
/// mirror was offered a shorter log or another past, or a dossier shows nothing; 2 where the words are outside the
/// grammar; 3 where the input, the log, a policy, an object or the key file is refused, or there is no room where a
/// store or a key file is to be made; 4 exactly where an object outside but `faults_out` counted a fault, and then one
/// of them counted one and the others none; 5 for want of memory, and only where the first word is the name of a
/// command; 6 where each leaf of the key file is used; 7 where a desk does not take a push. At 0, 1 and 7 the sink
/// gains the whole answer, and at 3 for a log that is broken the line that says so; at 2 to 7, but for such a log,
/// `faults_out` gains the line of the refusal, or a front of it where it counted a fault, which changes neither status
/// nor anything else. An object that a command does not use is unchanged.
pub fn run<S: Source, K: Sink, F: Sink, R: Keeper, D: Disk, E: Entropy, C: Clock, P: Peer>(
    alloc: Global,
    words: &[String],
    outside: &mut Outside<S, K, F, R, D, E, C, P>,
) -> u8
    ensures ran { Ran (ways S.Source K.Sink R.Keeper D.Disk E.Entropy C.Clock P.Peer) (map string_bytes words.now)
        (world_of outside.old) (world_of outside.new)
        (F.contents outside.old.faults_out) (F.contents outside.new.faults_out)
        (F.faults outside.old.faults_out) (F.faults outside.new.faults_out) result }
    ensures bound { result ≤ 7 }
{
    let ending = obey::<Kinds<S, K, F, R, D, E, C, P>>(alloc, words, outside);
    say(&ending, &mut outside.faults_out);
    ending.status()
}
