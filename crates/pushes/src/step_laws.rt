//! What holds of the definitions. No call needs these functions: their contracts are the laws.

ghost use Rattle.pushes.specs.Needing.{OneAnswer};
ghost use Rattle.pushes.specs.Retrying.{RetryOnce};
ghost use Rattle.pushes.specs.Steps.{OneReply, PushGrows};

/// Of a push either one needed id is the first that is nowhere, or none is, and never both.
pub fn one_answer()
    ensures { OneAnswer }
{}

/// A push has one reply.
pub fn one_reply()
    ensures { OneReply }
{}

/// The log of the repository that a push makes is the log with its entry.
pub fn push_grows()
    ensures { PushGrows }
{}

/// Over pushes made again, commits that fail, and stops, each id is in the log at most once, no acknowledged id leaves
/// it, and a push whose id is there is there already and changes nothing.
pub fn retry_once()
    ensures { RetryOnce }
{}
