//! Laws over the definitions of this crate. No call needs these functions: their contracts are the laws.

ghost use Rattle.keeper_directory.specs.Journals.{OneJournal};

/// A journal is read as what was written, and one that is cut is none.
pub fn one_journal()
    ensures { OneJournal }
{}
