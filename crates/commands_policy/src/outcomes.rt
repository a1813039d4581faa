//! How `policy-apply` ends the program.

ghost use Rattle.std.specs.Prelude.{◌≡◌};
ghost use Rattle.commands_policy.specs.Outcomes.{apply_ending};

use crate::applying::ApplyFault;
use log_appending::record_ending;
use worlds::{Ending, Refusal};

/// How the program ends. The line of a refused policy is moved.
pub fn apply_ending(outcome: Result<(), ApplyFault>) -> Ending
    ensures { result ≡ apply_ending outcome }
{
    match outcome {
        Ok(()) => Ending::Done,
        Err(ApplyFault::Unrecorded { fault }) => record_ending(&Err(fault)),
        Err(ApplyFault::Refused { why: _, line }) => Ending::Refused {
            refusal: Refusal::Policy { line },
        },
    }
}
