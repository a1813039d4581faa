//! What holds of the definitions. No call needs these functions: their contracts are the laws.

ghost use Rattle.std.specs.Prelude.{◌≡◌, ℕ, List};
ghost use Rattle.std.specs.Option.{option_map};
ghost use Rattle.git_object.specs.Repository.{Repository};
ghost use Rattle.rsl_chain.specs.FirstWrong.{FirstWrong};
ghost use Rattle.rsl_chain.specs.Logs.{entry_at, head_in, heads_of};
ghost use Rattle.rsl_chain.specs.Chain.{AreHeads, LogOrBreak, NeverBoth, OneBreak, OneLog};
ghost use Rattle.rsl_chain.specs.Growing.{LargerKeeps, LogGrows, NeverTheLog};

/// A repository has one log or one break, and never both.
pub fn logs()
    ensures one_log { OneLog }
    ensures one_break { OneBreak }
    ensures never_both { NeverBoth }
    ensures log_or_break { LogOrBreak }
{}

/// What the chain is made of are the heads of the entries that stand at the ids, each with a number from 1 to
/// 1,000,000 and without a parent exactly at 1.
pub fn heads()
    ensures are_heads { (r : Repository) → AreHeads (heads_of r) }
    ensures of_entries { (r : Repository) (id : List ℕ) → heads_of r id ≡ option_map head_in (entry_at r id) }
{}

/// The line that a refusal of a body names is the first after which no entry goes on: the lines before it are the
/// front of an entry's body, and with it they are the front of none.
pub fn first_wrong_line()
    ensures { FirstWrong }
{}

/// The log of a repository with one entry more is the old log and that entry, which counts those before it and goes
/// back to the last of them, where what the old ids lead to stays. In a larger repository it does.
pub fn log_grows()
    ensures grows { LogGrows }
    ensures larger { LargerKeeps }
{}

/// An entry that is read records no value of the log's own reference.
pub fn never_the_log()
    ensures { NeverTheLog }
{}
