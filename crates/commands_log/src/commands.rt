//! The commands over the objects outside.

ghost use Rattle.std.specs.Prelude.{◌≡◌, ◌≤◌, ◌<◌, length};
ghost use Rattle.git_object.specs.Names.{log_name};
ghost use Rattle.worlds.specs.Given.{world_of};
ghost use Rattle.commands_log.specs.Runs.{AnnotateRuns, LogRuns, RecordRuns};

use crate::logging::log_ending;
use crate::{annotating, logging, recording};
use git_object::{Ids, RefName};
use log_appending::record_ending;
use octets::Octets;
use std::alloc::Global;
use worlds::{Ending, Kinds, Lent, Objects, Of};

/// Prints the log of the store: a line for each entry, in the order of their numbers, or the line that names its break.
pub fn log<W: Objects>(alloc: Global, outside: &mut Lent<W>) -> Ending
    ensures runs { LogRuns ⟦<Of<W> as Objects>⟧.ways (world_of outside.old) (world_of outside.new) result }
    ensures unsaid { outside.new.faults_out ≡ outside.old.faults_out }
{
    let outcome = logging::log(alloc, &mut outside.sink, &mut outside.keeper);
    log_ending(&outcome)
}

/// Adds an entry to the log that records the value of a reference, `zeros` where it is not there, and prints its line.
pub fn record<W: Objects>(alloc: Global, name: &RefName, outside: &mut Lent<W>) -> Ending
    requires { name.now ≡ log_name → ⊥ }
    ensures runs { RecordRuns ⟦<Of<W> as Objects>⟧.ways name.now (world_of outside.old) (world_of outside.new) result }
    ensures unsaid { outside.new.faults_out ≡ outside.old.faults_out }
{
    let outcome = recording::record(
        alloc,
        name,
        &mut outside.sink,
        &mut outside.keeper,
        &mut outside.disk,
        &mut outside.clock,
    );
    record_ending(&outcome)
}

/// Adds an entry to the log that annotates those of 1 to 256 ids, which may be any, and prints its line: that they are
/// skipped, or just spoken of.
pub fn annotate<W: Objects>(
    alloc: Global,
    ids: &Ids,
    skip: bool,
    message: &Octets,
    outside: &mut Lent<W>,
) -> Ending
    requires some { 0 < length ids.now }
    requires few { length ids.now ≤ 256 }
    ensures runs { AnnotateRuns ⟦<Of<W> as Objects>⟧.ways ids.now skip message.now
        (world_of outside.old) (world_of outside.new) result }
    ensures unsaid { outside.new.faults_out ≡ outside.old.faults_out }
{
    let outcome = annotating::annotate(
        alloc,
        ids,
        skip,
        message,
        &mut outside.sink,
        &mut outside.keeper,
        &mut outside.disk,
        &mut outside.clock,
    );
    record_ending(&outcome)
}
