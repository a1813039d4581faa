//! What a turn asks of the state behind it.

ghost use Rattle.std.specs.Prelude.{◌≡◌, ℕ};
ghost use Rattle.desk_turns.specs.Histories.{History, count};

/// A state that stands for histories. What a history's members are, and why one is legal, is the state's own: a turn
/// looks at lists of members, their lengths, ids and seats, and at nothing else.
pub trait Chronicle {
    /// Whether a history is legal.
    ghost is_legal: { History → Type 0 };

    /// Whether the state stands for a history.
    ghost stands: { Self → History → Type 0 };

    /// How many faults the state has counted.
    ghost counted: { Self → ℕ };

    /// How many members each history has that the state stands for. It takes no memory.
    fn len(&self) -> u64
        ensures { (history : History) → stands self.now history → result ≡ count history };

    /// The count of faults. It takes no memory.
    fn faults(&self) -> u64
        ensures { result ≡ counted self.now };

    /// A state stands for legal histories alone.
    ghost stands_legal: { (state : Self) (history : History) → stands state history → is_legal history };
}
