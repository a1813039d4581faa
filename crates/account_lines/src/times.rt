//! The time in an author's text.

ghost use Rattle.std.specs.Prelude.{◌≡◌};
ghost use Rattle.std.specs.Option.{option_copied};
ghost use Rattle.account_lines.specs.Times.{last_but_one, seconds_of, time_of, words};

use text_reader::{NumberFault, read_decimal_within, split_word};

/// The last second of the year 9999.
const MOST_SECONDS: u64 = 253402300799;

// The last word that a space follows.
fn last_but_one(text: &[u8]) -> Option<&[u8]>
    ensures { option_copied result ≡ last_but_one (words text.now) }
{
    let mut last = None;
    let mut rest = text;
    'words: while let Some((word, more)) = split_word(rest) {
        last = Some(word);
        rest = more;
    }
    last
}

fn seconds_of(text: &[u8]) -> Option<u64>
    ensures { result ≡ seconds_of text.now }
{
    match read_decimal_within(text, MOST_SECONDS) {
        Ok(seconds) => Some(seconds),
        Err(NumberFault::NotNumber) => None,
        Err(NumberFault::TooLarge) => None,
    }
}

/// The seconds since the beginning of 1970, in UTC, that an author's text has as its last word but one, as Git writes
/// it, up to the end of the year 9999. Spaces alone part words.
pub fn time(author: &[u8]) -> Option<u64>
    ensures { result ≡ time_of author.now }
{
    match last_but_one(author) {
        Some(word) => seconds_of(word),
        None => None,
    }
}
