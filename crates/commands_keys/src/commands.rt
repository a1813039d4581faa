//! The commands over the objects outside.

ghost use Rattle.std.specs.Prelude.{◌≡◌};
ghost use Rattle.worlds.specs.Given.{world_of};
ghost use Rattle.commands_keys.specs.MakingKeys.{IsLow};
ghost use Rattle.commands_keys.specs.Runs.{KeyGenRuns, SealRuns};

use crate::making_keys::key_gen_ending;
use crate::sealing::seal_ending;
use crate::{making_keys, sealing};
use lmots::OtsType;
use lms_keys::LmsType;
use std::alloc::Global;
use worlds::{Ending, Kinds, Lent, Objects, Of};

/// Makes the key of these types, from an identifier and a seed that are drawn in this order, on a disk that holds
/// nothing, and prints its id and its public key. With `bottom` the key has two levels, and that is the type of the
/// trees below.
pub fn key_gen<W: Objects>(
    alloc: Global,
    lms: LmsType,
    ots: OtsType,
    bottom: Option<LmsType>,
    outside: &mut Lent<W>,
) -> Ending
    requires { IsLow lms bottom }
    ensures runs { KeyGenRuns ⟦<Of<W> as Objects>⟧.ways lms ots bottom
        (world_of outside.old) (world_of outside.new) result }
    ensures unsaid { outside.new.faults_out ≡ outside.old.faults_out }
{
    let outcome = making_keys::key_gen(
        alloc,
        lms,
        ots,
        bottom,
        &mut outside.sink,
        &mut outside.disk,
        &mut outside.entropy,
    );
    key_gen_ending(&outcome)
}

/// Signs what the source gives, with the first unused leaf of the key file, and prints the envelope and a line feed.
/// With `add` the source gives an envelope, and the signature stands in place of the first whose `keyid` is the key's
/// id, or else at the end; else it gives a payload of a policy's metadata.
pub fn seal<W: Objects>(alloc: Global, add: bool, outside: &mut Lent<W>) -> Ending
    ensures runs { SealRuns ⟦<Of<W> as Objects>⟧.ways add (world_of outside.old) (world_of outside.new) result }
    ensures unsaid { outside.new.faults_out ≡ outside.old.faults_out }
{
    let outcome = sealing::seal(
        alloc,
        add,
        &mut outside.source,
        &mut outside.sink,
        &mut outside.disk,
    );
    seal_ending(&outcome)
}
