//! The digits of a digest with its checksum, one for each chain.

ghost use Rattle.std.specs.Prelude.{◌≡◌, ℕ, ◌+◌, ◌-◌, ◌*◌, ◌/◌, ◌^◌, ◌<◌, ◌≤◌, ◌++◌, length, slice_index};
ghost use Rattle.std.specs.Int.{w16, to_be_bytes};
ghost use Rattle.lmots.specs.OtsType.{chain_count, width};
ghost use Rattle.lmots.specs.Digits.{coef, checksum, with_checksum};
ghost use Rattle.lmots.specs.OneTime.{digit_of};

use crate::ots_type::OtsType;
use crate::pieces::put;

// The digit at `index` of a string, from the high end (RFC 8554, section 3.1.3).
fn digit(kind: OtsType, string: &[u8], index: usize) -> u8
    requires { index * width kind / 8 < length string.now }
    ensures { result ≡ coef string.now index (width kind) }
{
    match kind {
        OtsType::W1 => (string[index / 8] >> (7 - index % 8)) % 2,
        OtsType::W2 => (string[index / 4] >> (6 - 2 * (index % 4))) % 4,
        OtsType::W4 => (string[index / 2] >> (4 - 4 * (index % 2))) % 16,
        OtsType::W8 => string[index],
    }
}

// The checksum of a digest (RFC 8554, section 4.4).
fn checksum(kind: OtsType, digest: &[u8; 32]) -> u16
    ensures { result ≡ checksum kind digest.now }
{
    let top = kind.top() as u16;
    let mut sum = 0u16;
    'digits: for index in 0..kind.digit_count() {
        sum += top - digit(kind, digest, index) as u16;
    }
    sum << kind.shift()
}

// A digest and its checksum.
fn with_checksum(kind: OtsType, digest: &[u8; 32]) -> [u8; 34]
    ensures { result ≡ with_checksum kind digest.now }
{
    let mut string = [0u8; 34];
    put(&mut string, 0, digest);
    put(&mut string, 32, &checksum(kind, digest).to_be_bytes());
    string
}

// The digits of a digest with its checksum, which say how far each chain is walked.
pub(crate) fn digits_of(kind: OtsType, digest: &[u8; 32]) -> [u8; 265]
    ensures digits { (chain : ℕ) → chain < chain_count kind
        → slice_index result chain ≡ digit_of kind digest.now chain }
    ensures low { (chain : ℕ) → chain < chain_count kind → slice_index result chain ≤ 2 ^ width kind - 1 }
{
    let string = with_checksum(kind, digest);
    let mut digits = [0u8; 265];
    'chains: for chain in 0..kind.chain_count() as usize {
        digits[chain] = digit(kind, &string, chain);
    }
    digits
}
