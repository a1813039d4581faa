//! The author of an entry.

ghost use Rattle.std.specs.Prelude.{◌≡◌};
ghost use Rattle.std.specs.Option.{option_copied};
ghost use Rattle.rsl_chain.specs.Lines.{strip};
ghost use Rattle.account_lines.specs.Authors.{author_of};

use text_reader::{split_line, strip_front};

// What follows the word that stands in front of the line.
fn strip<'a>(line: &'a [u8], word: &[u8]) -> Option<&'a [u8]>
    ensures { option_copied result ≡ strip word.now line.now }
{
    strip_front(line, word)
}

/// What stands behind `author ` in the first line that begins so of the bytes of an entry that are signed, lent; None
/// where no line does.
pub fn author(signed: &[u8]) -> Option<&[u8]>
    ensures { option_copied result ≡ author_of signed.now }
{
    let mut rest = signed;
    'lines: while let Some((line, more)) = split_line(rest) {
        if let Some(text) = strip(line, b"author ") {
            return Some(text);
        }
        rest = more;
    }
    None
}
