//! The heights of trees and their codes.

ghost use Rattle.std.specs.Prelude.{◌≡◌, ◌≢◌, ◌^◌, IfSome, IfNone};
ghost use Rattle.lms_keys.specs.LmsType.{code, height, signature_len};

use lmots::OtsType;

/// A type of RFC 8554, section 5.1, by the height of its tree.
#[derive(Debug, Clone, Copy, PartialEq, Eq)]
pub enum LmsType {
    H5,
    H10,
    H15,
    H20,
    H25,
}

impl LmsType {
    /// The type's code, as a signature and a public key spell it (RFC 8554, section 5.1).
    pub fn code(self) -> u32
        ensures { result ≡ code self }
    {
        match self {
            LmsType::H5 => 5,
            LmsType::H10 => 6,
            LmsType::H15 => 7,
            LmsType::H20 => 8,
            LmsType::H25 => 9,
        }
    }

    /// The type with this code, if there is one.
    pub fn of_code(number: u32) -> Option<LmsType>
        ensures found { IfSome result (λ kind. number ≡ code kind) }
        ensures none { IfNone result ((kind : LmsType) → number ≢ code kind) }
    {
        match number {
            5 => Some(LmsType::H5),
            6 => Some(LmsType::H10),
            7 => Some(LmsType::H15),
            8 => Some(LmsType::H20),
            9 => Some(LmsType::H25),
            _ => None,
        }
    }

    /// The number of levels above the leaves.
    pub fn height(self) -> u32
        ensures { result ≡ height self }
    {
        match self {
            LmsType::H5 => 5,
            LmsType::H10 => 10,
            LmsType::H15 => 15,
            LmsType::H20 => 20,
            LmsType::H25 => 25,
        }
    }

    /// The number of leaves.
    pub fn leaves(self) -> u32
        ensures { result ≡ 2 ^ height self }
    {
        match self {
            LmsType::H5 => 32,
            LmsType::H10 => 1024,
            LmsType::H15 => 32768,
            LmsType::H20 => 1048576,
            LmsType::H25 => 33554432,
        }
    }

    /// The bytes of a signature with one-time keys of this type: the leaf's number, the one-time
    /// signature, the type's code, and 32 bytes for each level (RFC 8554, section 5.4).
    pub fn signature_len(self, ots: OtsType) -> usize
        ensures { result ≡ signature_len self ots }
    {
        8 + ots.signature_len() + 32 * self.height() as usize
    }
}
