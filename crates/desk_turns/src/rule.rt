// The table behind a turn, its rule, and how seats are split off and joined.

use crate::chronicles::Chronicle;
use crate::seats::SeatView;
use atomic_table::{Join, Split, Table, TableRule};
use std::alloc::Global;
use std::marker::PhantomData;

/// The rule: one history, and what each seat has seen of it.
pub struct Law<S> {
    of: PhantomData<S>,
}

impl<S: Chronicle> TableRule<Option<S>, SeatView, ()> for Law<S> {
    ghost use Rattle.std.specs.Prelude.{true};
    ghost use Rattle.desk_turns.specs.Views.{nobody};
    ghost use Rattle.desk_turns.specs.Rule.{Kept};

    ghost holds = { λ _ s. Kept S.is_legal S.stands S.counted s };

    ghost first = { λ _. nobody true };
}

/// The table: the word of the turn, the word of the faults, and the place of the state.
pub type Board<S> = Table<Option<S>, SeatView, (), Law<S>, Global>;

/// A seat of the table, which may hold the state's place.
pub type Token<S> = atomic_table::Seat<Option<S>, SeatView>;

/// The seat that is split off has the number, and who splits it off the next one.
pub struct Numbering;

impl Split<SeatView> for Numbering {
    ghost use Rattle.std.specs.Prelude.{◌+◌, false};

    ghost left = { λ v. record v { number = v.number + 1 } };

    ghost right = { λ v. record v { makes = false } };
}

/// The first seat is told what the second has seen, and the second is a seat no more.
pub struct Telling;

impl Join<SeatView> for Telling {
    ghost use Rattle.std.specs.Prelude.{false};
    ghost use Rattle.desk_turns.specs.Views.{nobody};

    ghost both = { λ v w. record v { told = w.seen } };

    ghost spent = { nobody false };
}
