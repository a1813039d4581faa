//! Laws over the texts of values.

ghost use Rattle.command_words.specs.ValueLaws.{OneValue};

/// A text writes one list of ids at most, one number at most, and one name in one space at most.
pub fn one_value()
    ensures { OneValue }
{}
