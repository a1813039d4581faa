//! Laws over the definitions of this crate. No call needs these functions: their contracts are the laws.

ghost use Rattle.would_be.specs.Laws.{AsRecorded, FirstTold};

/// The first of the faults that are told is the one that the entry would have, and where none is told it has none.
pub fn first_told()
    ensures { FirstTold }
{}

/// The fault that an entry would have, if a key signed it now, is the one that it has once it is recorded behind the
/// log, signed by that key.
pub fn as_recorded()
    ensures { AsRecorded }
{}
