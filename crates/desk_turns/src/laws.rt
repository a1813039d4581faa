//! What holds of a turn at every moment, and of whole runs of a seat.

ghost use Rattle.desk_turns.specs.Runs.{NothingIsTakenBack, OwnRises, LongerOfTwo};
ghost use Rattle.desk_turns.specs.Moments.{FreeTurn, OneHistory, NoFork};

use crate::chronicles::Chronicle;

/// Whatever calls a seat makes, in whatever order: what it had seen begins what it sees later, of what it added
/// nothing is gone, and its count of faults never falls.
pub fn nothing_is_taken_back<S: Chronicle>()
    ensures { NothingIsTakenBack S.is_legal S.stands S.counted }
{}

/// A seat's own count of faults rises by a turn exactly where the faults of the state rose in that turn.
pub fn own_rises()
    ensures { OwnRises }
{}

/// Two histories that begin one are both beginnings of the longer of them, which is what a seat has seen that another
/// was joined to.
pub fn longer_of_two()
    ensures { LongerOfTwo }
{}

/// While the turn is free, the state behind it stands for a legal history, and the first word is twice its length.
pub fn free_turn<S: Chronicle>()
    ensures { FreeTurn S.is_legal S.stands S.counted }
{}

/// At every moment there is one legal history that all which any seat has seen begins, and in which each seat added
/// just what it knows to have added.
pub fn one_history<S: Chronicle>()
    ensures { OneHistory S.is_legal S.stands S.counted }
{}

/// Of what any two seats have seen, the one begins the other.
pub fn no_fork<S: Chronicle>()
    ensures { NoFork S.is_legal S.stands S.counted }
{}
