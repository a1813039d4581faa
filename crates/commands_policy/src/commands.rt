//! The commands over the objects outside.

ghost use Rattle.std.specs.Prelude.{◌≡◌};
ghost use Rattle.worlds.specs.Given.{world_of};
ghost use Rattle.commands_policy.specs.Runs.{ApplyRuns, ExplainRuns};

use crate::explaining::explain_ending;
use crate::outcomes::apply_ending;
use crate::{applying, explaining};
use ref_patterns::Space;
use std::alloc::Global;
use worlds::{Ending, Kinds, Lent, Objects, Of};

/// Adds an entry to the log that records the value of the policy's reference, and prints its line, where the entry is
/// an epoch whatever keys the first root has.
pub fn policy_apply<W: Objects>(alloc: Global, outside: &mut Lent<W>) -> Ending
    ensures runs { ApplyRuns ⟦<Of<W> as Objects>⟧.ways (world_of outside.old) (world_of outside.new) result }
    ensures unsaid { outside.new.faults_out ≡ outside.old.faults_out }
{
    let outcome = applying::policy_apply(
        alloc,
        &mut outside.sink,
        &mut outside.keeper,
        &mut outside.disk,
        &mut outside.clock,
    );
    apply_ending(outcome)
}

/// Prints which rules protect a name under the policy in force after the whole log: a line for each reached rule in
/// pre-order, `unprotected` where there is none, or `no-policy`; or the line that names the log's break.
pub fn explain<W: Objects>(
    alloc: Global,
    space: Space,
    name: &[u8],
    outside: &mut Lent<W>,
) -> Ending
    ensures runs { ExplainRuns ⟦<Of<W> as Objects>⟧.ways space name.now
        (world_of outside.old) (world_of outside.new) result }
    ensures unsaid { outside.new.faults_out ≡ outside.old.faults_out }
{
    let outcome = explaining::explain(alloc, space, name, &mut outside.sink, &mut outside.keeper);
    explain_ending(&outcome)
}
