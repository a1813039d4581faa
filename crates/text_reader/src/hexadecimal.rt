//! Bytes as lower-case hexadecimal digits.

ghost use Rattle.std.specs.Prelude.{◌≡◌, ◌↔◌, ◌*◌, length, IfSome, IsSome, IsTrue};
ghost use Rattle.std.specs.List.{AllPass};
ghost use Rattle.hex.specs.Hex.{encode_lower};
ghost use Rattle.text_reader.specs.Hexadecimal.{is_lower_digit, IsLowerHexadecimal};

use hex::FromHex;

/// Whether each byte is one of `0` to `9` and `a` to `f`.
pub fn is_lower_hexadecimal(text: &[u8]) -> bool
    ensures { IsTrue result ↔ AllPass is_lower_digit text.now }
{
    text.iter()
        .all(|byte| matches!(*byte, b'0'..=b'9' | b'a'..=b'f'))
}

/// The `N` bytes that a text of exactly twice as many lower-case hexadecimal digits writes; None for any
/// other text.
pub fn read_hexadecimal<const N: usize>(text: &[u8]) -> Option<[u8; N]>
    ensures found { IsSome result ↔ IsLowerHexadecimal N text.now }
    ensures value { IfSome result (λ bytes. encode_lower bytes ≡ text.now) }
{
    if !is_lower_hexadecimal(text) {
        return None;
    }
    match <[u8; N] as FromHex>::from_hex(text) {
        Ok(bytes) => Some(bytes),
        Err(_) => None,
    }
}
