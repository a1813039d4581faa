//! Laws over the definitions of this crate. No call needs these functions: their contracts are the laws.

ghost use Rattle.std.specs.Prelude.{ℕ, List};
ghost use Rattle.rsl_chain.specs.Entries.{Taken};
ghost use Rattle.judging.specs.Rules.{Rules};
ghost use Rattle.judged_logs.specs.Laws.{IsLeast, IsMending, IsNoWay};

/// Where exactly those of the reference's entries are skipped more that are told, and an entry behind them is
/// authorised and brings the tree back, the verdict on the reference is `accepted`.
pub fn mending<P, F>()
    ensures { (rules : Rules P F) (log : List Taken) (name : List ℕ) (b : ℕ) → IsMending rules log name b }
{}

/// Whatever entry rescues the violation, each of those that are told is skipped before it.
pub fn least<P, F>()
    ensures { (rules : Rules P F) (log : List Taken) (name : List ℕ) (b : ℕ) → IsLeast rules log name b }
{}

/// Where no tree is told, no entry that comes behind these skips completes a recovery.
pub fn no_way<P, F>()
    ensures { (rules : Rules P F) (log : List Taken) (name : List ℕ) (b : ℕ) → IsNoWay rules log name b }
{}
