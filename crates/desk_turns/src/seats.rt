//! Seats of a turn.

ghost use Rattle.std.specs.Prelude.{◌≡◌};

use atomic_table::Badge;
use std::marker::Model;

/// What a seat knows. The table asks for a type of it, of which no value is ever made.
pub struct SeatView;

impl Model for SeatView {
    ghost use Rattle.std.specs.Prelude.{false};
    ghost use Rattle.desk_turns.specs.Views.{View, view_coded, nobody};

    ghost Value = { View };

    ghost coded = { view_coded };

    ghost view = { λ _. nobody false };
}

/// One caller's seat at a turn. It goes with its caller to any thread, and names no state, so it lies in any struct.
/// A seat that is dropped leaves the turn to the others; one that is dropped while it holds the turn leaves it taken.
#[derive(Drop)]
pub struct Seat {
    pub(crate) number: u32,
    pub(crate) badge: Badge<SeatView>,
}

impl Model for Seat {
    ghost use Rattle.desk_turns.specs.Seats.{Sitting, sitting_coded};
    ghost use Rattle.desk_turns.specs.Seated.{sitting_of, IsSeat};

    ghost Value = { Sitting };

    ghost coded = { sitting_coded };

    ghost view = { sitting_of };

    ghost invariant = { IsSeat };
}

impl Seat {
    /// Its number. Seats count from 1.
    pub fn number(&self) -> u32
        ensures { result ≡ self.now.number }
    {
        self.number
    }
}
