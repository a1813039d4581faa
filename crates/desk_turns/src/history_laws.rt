//! What holds of the definitions. No call needs these functions: their contracts are the laws.

ghost use Rattle.desk_turns.specs.Keeping.{LoadStands, SettleKeeps, StepKeeps};
ghost use Rattle.desk_turns.specs.Legal.{LegalFronts};

use keeper_api::Keeper;

/// The fronts of a legal history are legal, as far as they have what was loaded.
pub fn legal_fronts()
    ensures { LegalFronts }
{}

/// A step keeps what a desk's log and its store stand for, with one member more exactly where the push is done.
pub fn step_keeps<R: Keeper>()
    ensures { StepKeeps R.Keeper }
{}

/// Settling keeps it too, with one member more exactly where the entry in doubt is taken in; and over a store that
/// tells what it holds the log's reference is nowhere else.
pub fn settle_keeps<R: Keeper>()
    ensures { SettleKeeps R.Keeper }
{}

/// A log that was just loaded, over a store of which a stop leaves what it holds, stands for a history of nobody's
/// entries.
pub fn load_stands<R: Keeper>()
    ensures { LoadStands R.Keeper }
{}
