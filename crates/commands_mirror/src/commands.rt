//! The commands over the objects outside.

ghost use Rattle.std.specs.Prelude.{◌≡◌};
ghost use Rattle.worlds.specs.Given.{world_of};
ghost use Rattle.evidence.specs.Dossiers.{IsPublic};
ghost use Rattle.commands_mirror.specs.Runs.{CheckRuns, MakeRuns, MirrorRuns};

use crate::checking_evidence::check_ending;
use crate::making_evidence::make_ending;
use crate::offering::mirror_ending;
use crate::{checking_evidence, making_evidence, offering};
use git_object::ObjectId;
use std::alloc::Global;
use worlds::{Ending, Kinds, Lent, Objects, Of};

/// Offers the source's repository to the store, and prints what its log is to the kept one.
pub fn mirror<W: Objects>(alloc: Global, outside: &mut Lent<W>) -> Ending
    ensures runs { MirrorRuns ⟦<Of<W> as Objects>⟧.ways (world_of outside.old) (world_of outside.new) result }
    ensures unsaid { outside.new.faults_out ≡ outside.old.faults_out }
{
    let outcome = offering::mirror(
        alloc,
        &mut outside.source,
        &mut outside.sink,
        &mut outside.keeper,
    );
    mirror_ending(&outcome)
}

/// Prints the dossier of a key and of the bodies of two objects of the store.
pub fn evidence_make<W: Objects>(
    alloc: Global,
    public: &[u8],
    left: &ObjectId,
    right: &ObjectId,
    outside: &mut Lent<W>,
) -> Ending
    requires { IsPublic public.now }
    ensures runs { MakeRuns ⟦<Of<W> as Objects>⟧.ways public.now left.now right.now
        (world_of outside.old) (world_of outside.new) result }
    ensures unsaid { outside.new.faults_out ≡ outside.old.faults_out }
{
    let outcome = making_evidence::evidence_make(
        alloc,
        public,
        left,
        right,
        &mut outside.sink,
        &mut outside.keeper,
    );
    make_ending(&outcome)
}

/// Reads a dossier from the source, and prints what it shows of the holder of its key.
pub fn evidence_check<W: Objects>(alloc: Global, outside: &mut Lent<W>) -> Ending
    ensures runs { CheckRuns ⟦<Of<W> as Objects>⟧.ways (world_of outside.old) (world_of outside.new) result }
    ensures unsaid { outside.new.faults_out ≡ outside.old.faults_out }
{
    let outcome = checking_evidence::evidence_check(alloc, &mut outside.source, &mut outside.sink);
    check_ending(&outcome)
}
