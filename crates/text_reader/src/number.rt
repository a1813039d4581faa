//! Whole numbers of any size, of which those up to a limit are read.

ghost use Rattle.std.specs.Prelude.{◌≡◌, ◌↔◌, ◌<◌, ◌≤◌, IfOk, IsErrOf, IsTrue, decimal, true};
ghost use Rattle.std.specs.Char.{is_ascii_digit};
ghost use Rattle.std.specs.List.{AllPass};
ghost use Rattle.text_reader.specs.Number.{IsNumber, number_of};

use crate::read_decimal;

/// Why a text gives no number up to a limit.
#[derive(Debug, Clone, Copy, PartialEq, Eq, Drop)]
pub enum NumberFault {
    /// The text is no decimal digits, or has a needless zero in front.
    NotNumber,
    /// The number is past the limit.
    TooLarge,
}

// Whether each byte is one of `0` to `9`.
fn are_digits(text: &[u8]) -> bool
    ensures { IsTrue result ↔ AllPass is_ascii_digit text.now }
{
    text.iter().all(|byte| matches!(*byte, b'0'..=b'9'))
}

/// Whether the text is decimal digits, one or more, and the first of several is no zero.
pub fn is_number(text: &[u8]) -> bool
    ensures { IsTrue result ↔ IsNumber text.now }
{
    if text.is_empty() || !are_digits(text) {
        return false;
    }
    text[0] != b'0' || text.len() == 1
}

/// The number that the whole text writes in decimal digits, where it is at most `most`. `NotNumber` comes
/// exactly where the text is no decimal digits without a sign or a leading zero, and `TooLarge` exactly where
/// it is and writes a number past `most`, of however many digits.
pub fn read_decimal_within(text: &[u8], most: u64) -> Result<u64, NumberFault>
    ensures found { IfOk result (λ number. text.now ≡ decimal number) }
    ensures within { IfOk result (λ number. number ≤ most) }
    ensures no_number { IsErrOf result NumberFault.NotNumber → IsNumber text.now → ⊥ }
    ensures too_large { IsErrOf result NumberFault.TooLarge → IsNumber text.now × (most < number_of text.now) }
{
    match read_decimal(text) {
        Some(number) => {
            if number > most {
                return Err(NumberFault::TooLarge);
            }
            Ok(number)
        }
        None => {
            if is_number(text) {
                return Err(NumberFault::TooLarge);
            }
            Err(NumberFault::NotNumber)
        }
    }
}
