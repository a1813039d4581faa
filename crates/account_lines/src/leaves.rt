//! The leaf that a signature names.

ghost use Rattle.std.specs.Prelude.{◌≡◌};
ghost use Rattle.lmots.specs.declared.ots_type.OtsType.{OtsType};
ghost use Rattle.account_lines.specs.Leaves.{last_leaf, leaf_below, leaf_of, len_of, lms_of, number_if, ots_of};
ghost use Rattle.account_lines.specs.Leaves.{two_leaves};

use lmots::OtsType;
use lmots::pieces::number_at;
use lms_keys::LmsType;

// The number in the four bytes at a place, where there are so many.
fn number_if(bytes: &[u8], at: usize) -> Option<u32>
    ensures { result ≡ number_if bytes.now at }
{
    if bytes.len() < 4 || at > bytes.len() - 4 {
        return None;
    }
    Some(number_at(bytes, at))
}

fn lms_of(number: u32) -> Option<LmsType>
    ensures { result ≡ lms_of number }
{
    LmsType::of_code(number)
}

fn ots_of(number: u32) -> Option<OtsType>
    ensures { result ≡ ots_of number }
{
    OtsType::of_code(number)
}

// The bytes of a signature by a key of one level.
fn len_of(key: &[u8]) -> Option<usize>
    ensures { result ≡ len_of key.now }
{
    let lms = lms_of(number_if(key, 0)?)?;
    let ots = ots_of(number_if(key, 4)?)?;
    Some(lms.signature_len(ots))
}

// The leaf of a key of two levels, by those of the two.
fn two_leaves(top: u32, lms: LmsType, last: u32) -> u64
    ensures { result ≡ two_leaves top lms last }
{
    let top = u64::from(top);
    let before = match lms {
        LmsType::H5 => top * 32,
        LmsType::H10 => top * 1024,
        LmsType::H15 => top * 32768,
        LmsType::H20 => top * 1048576,
        LmsType::H25 => top * 33554432,
    };
    before + u64::from(last)
}

// The leaf of a signature by a key of two levels, of which the first signature has so many bytes.
fn leaf_below(signature: &[u8], len: usize) -> Option<u64>
    ensures { result ≡ leaf_below signature.now len }
{
    if len > signature.len() {
        return None;
    }
    let top = number_if(signature, 4)?;
    let lms = lms_of(number_if(signature, 4 + len)?)?;
    let last = number_if(signature, 60 + len)?;
    Some(two_leaves(top, lms, last))
}

// The leaf of a signature by a key of two levels.
fn last_leaf(public: &[u8], signature: &[u8]) -> Option<u64>
    ensures { result ≡ last_leaf public.now signature.now }
{
    if public.len() < 4 || number_if(public, 0)? != 2 {
        return None;
    }
    let (_, key) = public.split_at(4);
    leaf_below(signature, len_of(key)?)
}

/// The leaf that a signature names, as key files number them: of a public key of 56 bytes that of its one tree, and of
/// one of 60 bytes and two levels that of both; None of another key, and where the signature is too short. Whether it
/// is good is not looked at.
pub fn leaf_of(public: &[u8], signature: &[u8]) -> Option<u64>
    ensures { result ≡ leaf_of public.now signature.now }
{
    if public.len() == 56 {
        let leaf = number_if(signature, 0)?;
        Some(u64::from(leaf))
    } else {
        last_leaf(public, signature)
    }
}
