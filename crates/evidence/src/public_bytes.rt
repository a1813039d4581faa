//! The bytes of a public key, told apart by their number.

ghost use Rattle.std.specs.Prelude.{◌≡◌, ◌≢◌, ℕ, List, IfSome, IfNone};
ghost use Rattle.hex.specs.Hex.{encode_lower};
ghost use Rattle.evidence.specs.Dossiers.{IsPublic, bytes_in};

use text_reader::read_hexadecimal;

/// The bytes of a public key: 56 of an LMS key, 60 of an HSS key (RFC 8554, sections 5.3 and 6.1).
#[derive(Clone, Copy, Debug, PartialEq, Eq)]
pub enum PublicBytes {
    Lms([u8; 56]),
    Hss([u8; 60]),
}

impl PublicBytes {
    /// The bytes that 112 or 120 lower-case hexadecimal digits write; None for any other text. It takes no memory.
    pub fn from_hex(digits: &[u8]) -> Option<PublicBytes>
        ensures found { IfSome result (λ public. encode_lower (bytes_in public) ≡ digits.now) }
        ensures valid { IfSome result (λ public. IsPublic (bytes_in public)) }
        ensures none { IfNone result ((public : List ℕ) → IsPublic public → digits.now ≢ encode_lower public) }
    {
        if let Some(bytes) = read_hexadecimal::<56>(digits) {
            return Some(PublicBytes::Lms(bytes));
        }
        match read_hexadecimal::<60>(digits) {
            Some(bytes) => Some(PublicBytes::Hss(bytes)),
            None => None,
        }
    }

    /// The bytes, lent.
    pub fn as_slice(&self) -> &[u8]
        ensures { result.now ≡ bytes_in self.now }
    {
        match self {
            PublicBytes::Lms(bytes) => bytes,
            PublicBytes::Hss(bytes) => bytes,
        }
    }
}
