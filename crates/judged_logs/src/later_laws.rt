//! Laws over the definitions of this crate. No call needs these functions: their contracts are the laws.

ghost use Rattle.std.specs.Prelude.{◌<◌, ◌≤◌, ℕ, List};
ghost use Rattle.rsl_chain.specs.Entries.{Taken};
ghost use Rattle.judging.specs.Reads.{reads_of};
ghost use Rattle.judging.specs.Rules.{Rules};
ghost use Rattle.judged_logs.specs.LaterLaws.{IsSameBehind, IsSameFrom};
ghost use Rattle.judged_logs.specs.LaterRules.{AreNumbered, rules_from};

/// Which policy is in force, what is skipped and by whom, and where references stand is the same, whatever entries are
/// taken unjudged.
pub fn same_behind<P, F>()
    ensures { (first : ℕ) (rules : Rules P F) (log : List Taken) → IsSameBehind first rules log }
{}

/// What is found of the entry of a number from which on entries are judged is the same, and so is by whom it is
/// rescued.
pub fn same_from<P, F>()
    ensures { (first : ℕ) (rules : Rules P F) (log : List Taken) (number : ℕ) → AreNumbered log → 0 < number
        → first ≤ number → IsSameFrom first rules log number }
{}

/// It takes no more reads.
pub fn no_more_reads<P, F>()
    ensures { (first : ℕ) (rules : Rules P F) (log : List Taken) (t : Taken)
        → reads_of (rules_from first rules) log t ≤ reads_of rules log t }
{}
