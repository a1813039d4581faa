//! Why words are no command.

/// Why no command is read from words.
#[derive(Clone, Copy, Debug, PartialEq, Eq, Drop)]
pub enum WordsFault {
    /// The words are outside the grammar.
    Outside,
    Memory,
}
