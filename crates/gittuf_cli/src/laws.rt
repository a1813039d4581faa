//! Laws over the definitions of this crate: how a run ends is determined by the words and the content.

ghost use Rattle.gittuf_cli.specs.Contents.{OneOutcome, TellsOutcome};
ghost use Rattle.gittuf_cli.specs.Headline.{Headline};
ghost use Rattle.worlds.specs.Worlds.{ways};

use command_words::laws::one_command;
use commands_approve::laws::{approve_over_world, one_of_approvals};
use commands_desk::laws::{one_of_serve, serve_over_world};
use commands_desk::push_laws::{one_of_push, push_over_world};
use commands_keys::laws::{keys_over_world, one_of_keys};
use commands_log::laws::{log_over_world, one_of_history};
use commands_mirror::laws::{mirror_over_world, one_of_mirror};
use commands_policy::laws::{one_of_policy, policy_over_world};
use commands_snapshot::outcome_laws::{one_of_trees, snapshot_over_world};
use commands_stream::laws::{one_of_stream, stream_over_world};
use commands_verify::global_laws::{global_over_world, one_of_global};
use commands_verify::laws::{one_of_verify, verify_over_world};
use demo::laws::{demo_over_world, one_of_demo};
use edge_io::{Clock, Disk, Entropy, Sink, Source};
use keeper_api::Keeper;
use links::Peer;
use log_appending::laws::one_of_log;
use worlds::{Kinds, Objects, Of};

/// The sentence that the program exists for. For words that ask for `verify-ref`, over a store that tells what it holds
/// and with `--stdin` a source that does, a run in which no object counts a fault comes to one of three: memory was
/// wanting, which is said; or the stream is refused, which is said by its number, and nothing is printed; or the
/// repository that is held, or that the stream spells, is judged: exactly the line of the one verdict on the reference
/// is printed, with its status, or exactly the line that names the commit at which its log breaks.
pub fn headline<S: Source, K: Sink, R: Keeper, D: Disk, E: Entropy, C: Clock, P: Peer>()
    ensures { Headline (ways S.Source K.Sink R.Keeper D.Disk E.Entropy C.Clock P.Peer) }
{
    one_command();
}

/// Where the objects that the command touches tell their content, an ending is the one for the words and that content,
/// unless the run stopped for a fault or for want of memory.
pub fn tells_outcome<W: Objects>()
    ensures { TellsOutcome ⟦<Of<W> as Objects>⟧.ways }
{
    verify_over_world::<W>();
    global_over_world::<W>();
    stream_over_world::<W>();
    keys_over_world::<W>();
    log_over_world::<W>();
    snapshot_over_world::<W>();
    policy_over_world::<W>();
    approve_over_world::<W>();
    mirror_over_world::<W>();
    serve_over_world::<W>();
    push_over_world::<W>();
    demo_over_world::<W>();
}

/// There is at most one ending for the same words and content; for `snapshot` where objects are made of the listing or
/// refused, and not both.
pub fn one_outcome()
    ensures { OneOutcome }
{
    one_command();
    one_of_verify();
    one_of_global();
    one_of_stream();
    one_of_keys();
    one_of_history();
    one_of_log();
    one_of_trees();
    one_of_policy();
    one_of_approvals();
    one_of_mirror();
    one_of_serve();
    one_of_push();
    one_of_demo();
}
