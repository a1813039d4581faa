//! Laws over the definitions of this crate. No call needs these functions: their contracts are the laws.

ghost use Rattle.account_lines.specs.Laws.{AuthorWhere, TimeWhere};

/// The author is what stands behind `author ` in the first line that begins so.
pub fn author_where()
    ensures { AuthorWhere }
{}

/// A text has a time exactly where a number stands before its last space, up to the end of the year 9999, and before
/// that number nothing or another space, and its time is that number.
pub fn time_where()
    ensures { TimeWhere }
{}
