//! What holds of the definitions. No call needs these functions: their contracts are the laws.

ghost use Rattle.desk_core.specs.GateSteps.{OneGateReply};
ghost use Rattle.desk_core.specs.Runs.{GateHolds};

/// A push has one reply at a gate.
pub fn one_gate_reply()
    ensures { OneGateReply }
{}

/// Where a repository was loaded in which no reference has a violation and every entry for the policy is an epoch, it
/// is so behind every run of a gate's steps, in the repository as it then is.
pub fn gate_holds()
    ensures { GateHolds }
{}
