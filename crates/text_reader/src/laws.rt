//! What holds of the texts of whole numbers of any size.

ghost use Rattle.std.specs.Prelude.{◌≡◌, []};
ghost use Rattle.text_reader.specs.Laws.{OneSpelling, PlaceValue, SomeSpelling};
ghost use Rattle.text_reader.specs.Number.{number_of};

/// A whole number of any size has a text, and one text alone. A text's number goes by the places of its
/// digits: no digits are 0, and one more digit adds its own value to ten times the number before it.
pub fn numbers()
    ensures one_spelling { OneSpelling }
    ensures no_digits { number_of [] ≡ 0 }
    ensures one_more_digit { PlaceValue }
    ensures some_spelling { SomeSpelling }
{}
