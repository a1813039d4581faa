//! Decimal numbers without a sign or a leading zero.

ghost use Rattle.std.specs.Prelude.{◌≡◌, ◌≢◌, ◌↔◌, ◌<◌, ◌^◌, ℕ, IfSome, IfNone, IsTrue, decimal};

use itoa::Buffer;
use std::str;

// Whether the text is how this number is written.
fn is_text_of(number: u64, text: &str) -> bool
    ensures { IsTrue result ↔ (text.now ≡ decimal number) }
{
    let mut digits = Buffer::new();
    digits.format(number) == text
}

// The number that a text of characters writes.
fn read_digits(text: &str) -> Option<u64>
    ensures found { IfSome result (λ number. text.now ≡ decimal number) }
    ensures none { IfNone result ((number : ℕ) → number < 2 ^ 64 → text.now ≢ decimal number) }
{
    match text.parse::<u64>() {
        Ok(number) => {
            if is_text_of(number, text) {
                return Some(number);
            }
            None
        }
        Err(_) => None,
    }
}

/// The number below 2^64 that the whole text writes in decimal digits, without a sign or a leading zero.
pub fn read_decimal(text: &[u8]) -> Option<u64>
    ensures found { IfSome result (λ number. text.now ≡ decimal number) }
    ensures none { IfNone result ((number : ℕ) → number < 2 ^ 64 → text.now ≢ decimal number) }
{
    match str::from_utf8(text) {
        Ok(text) => read_digits(text),
        Err(_) => None,
    }
}
