//! Laws over the definitions of this crate. No call needs these functions: their contracts are the laws.

ghost use Rattle.std.specs.Prelude.{ℕ, List};
ghost use Rattle.rsl_chain.specs.Entries.{Taken};
ghost use Rattle.judging.specs.Rules.{Rules};
ghost use Rattle.judged_logs.specs.WhomLaws.{IsFirstRescue, IsFirstSkip};

/// The entry by which another is told to be skipped is the first that skips it, and an entry is skipped exactly where
/// one is told.
pub fn first_skip<P, F>()
    ensures { (rules : Rules P F) (log : List Taken) (i : ℕ) → IsFirstSkip rules log i }
{}

/// The entry by which another is told to be rescued is the first that rescues it, and an entry that is refused is
/// rescued exactly where one is told.
pub fn first_rescue<P, F>()
    ensures { (rules : Rules P F) (log : List Taken) (b : ℕ) → IsFirstRescue rules log b }
{}
