//! Laws over the definitions of this crate. No call needs these functions: their contracts are the laws.

ghost use Rattle.accounts.specs.Fronts.{AsBefore};
ghost use Rattle.accounts.specs.Laws.{EpochGreatest, OneLine, OneVerdictLine};
ghost use Rattle.accounts.specs.Skips.{AsSkipped};

use rsl_chain::laws::logs;

/// A repository has one line at most for the entry of a number, and none where its log breaks.
pub fn one_line()
    ensures { OneLine }
{
    logs();
}

/// A repository has one line at most that tells the verdict on a reference.
pub fn one_verdict_line()
    ensures { OneVerdictLine }
{
    logs();
}

/// The epoch that is told of an entry is the last entry before it that brought a policy into force.
pub fn epoch_greatest()
    ensures { EpochGreatest }
{}

/// What is told of an entry that an annotation would skip is what it does, once it is recorded behind the log, signed
/// by that key.
pub fn as_skipped()
    ensures { AsSkipped }
{}

/// The entries that are judged before a number are those of the whole log before it, by which the entry of this number
/// is judged.
pub fn as_before()
    ensures { AsBefore }
{
    logs();
}
