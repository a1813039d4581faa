//! The one-time types and their numbers.

ghost use Rattle.std.specs.Prelude.{◌≡◌, ◌≢◌, ◌-◌, ◌/◌, ◌^◌, IfSome, IfNone};
ghost use Rattle.lmots.specs.OtsType.{code, width, shift, chain_count, signature_len};

/// A one-time type of RFC 8554, section 4.1, by the width of its digits in bits.
#[derive(Debug, Clone, Copy, PartialEq, Eq)]
pub enum OtsType {
    W1,
    W2,
    W4,
    W8,
}

impl OtsType {
    /// The type's code, as a signature and a public key spell it (RFC 8554, section 4.1).
    pub fn code(self) -> u32
        ensures { result ≡ code self }
    {
        match self {
            OtsType::W1 => 1,
            OtsType::W2 => 2,
            OtsType::W4 => 3,
            OtsType::W8 => 4,
        }
    }

    /// The type with this code, if there is one.
    pub fn of_code(number: u32) -> Option<OtsType>
        ensures found { IfSome result (λ kind. number ≡ code kind) }
        ensures none { IfNone result ((kind : OtsType) → number ≢ code kind) }
    {
        match number {
            1 => Some(OtsType::W1),
            2 => Some(OtsType::W2),
            3 => Some(OtsType::W4),
            4 => Some(OtsType::W8),
            _ => None,
        }
    }

    /// The bytes of a signature: the code, the randomizer, and 32 bytes for each chain (RFC 8554,
    /// section 4.5).
    pub fn signature_len(self) -> usize
        ensures { result ≡ signature_len self }
    {
        36 + 32 * self.chain_count() as usize
    }

    // The number of chains, which the RFC calls p.
    pub(crate) fn chain_count(self) -> u16
        ensures { result ≡ chain_count self }
    {
        match self {
            OtsType::W1 => 265,
            OtsType::W2 => 133,
            OtsType::W4 => 67,
            OtsType::W8 => 34,
        }
    }

    // The number of digits of a digest of 32 bytes.
    pub(crate) fn digit_count(self) -> usize
        ensures { result ≡ 256 / width self }
    {
        match self {
            OtsType::W1 => 256,
            OtsType::W2 => 128,
            OtsType::W4 => 64,
            OtsType::W8 => 32,
        }
    }

    // The greatest digit, and so the number of steps of a whole chain.
    pub(crate) fn top(self) -> u8
        ensures { result ≡ 2 ^ width self - 1 }
    {
        match self {
            OtsType::W1 => 1,
            OtsType::W2 => 3,
            OtsType::W4 => 15,
            OtsType::W8 => 255,
        }
    }

    // By how many bits the checksum is shifted to the left, which the RFC calls ls.
    pub(crate) fn shift(self) -> u32
        ensures { result ≡ shift self }
    {
        match self {
            OtsType::W1 => 7,
            OtsType::W2 => 6,
            OtsType::W4 => 4,
            OtsType::W8 => 0,
        }
    }
}
