//! How `approve` ends the program.

ghost use Rattle.std.specs.Prelude.{◌≡◌};
ghost use Rattle.commands_approve.specs.Outcomes.{approve_ending, fault_ending};

use crate::approving::ApproveFault;
use log_appending::record_ending;
use worlds::{Ending, Refusal};

fn refused(refusal: Refusal) -> Ending
    ensures { result ≡ Ending.Refused refusal }
{
    Ending::Refused { refusal }
}

/// How the program ends.
pub fn approve_ending(outcome: &Result<(), ApproveFault>) -> Ending
    ensures { result ≡ approve_ending outcome.now }
{
    match outcome {
        Ok(()) => Ending::Done,
        Err(fault) => fault_ending(fault),
    }
}

fn fault_ending(fault: &ApproveFault) -> Ending
    ensures { result ≡ fault_ending fault.now }
{
    match fault {
        ApproveFault::Unrecorded { fault } => record_ending(&Err(*fault)),
        ApproveFault::Unreadable { id } => refused(Refusal::Object { id: *id }),
        ApproveFault::Full => refused(Refusal::Input),
        ApproveFault::TooLong => refused(Refusal::Input),
    }
}
