//! Public keys and the bytes that they are written as.

ghost use Rattle.std.specs.Prelude.{◌≡◌, ◌≢◌, ◌↔◌, length, IfOk};
ghost use Rattle.lms_keys.specs.PublicKey.{key_bytes, HasUnknownType};

use crate::lms_type::LmsType;
use lmots::OtsType;
use lmots::pieces::{block_at, number_at, put};

/// A public key (RFC 8554, section 5.3): its types, its identifier, which the RFC calls I, and
/// the value of its tree's root.
#[derive(Debug, Clone, Copy, PartialEq, Eq)]
pub struct PublicKey {
    pub lms: LmsType,
    pub ots: OtsType,
    pub i: [u8; 16],
    pub root: [u8; 32],
}

/// Why bytes are no public key.
#[derive(Debug, Clone, Copy, PartialEq, Eq)]
pub enum KeyFault {
    /// Not 56 bytes.
    BadLength,
    /// A type code that is that of no type.
    BadType,
}

impl PublicKey {
    /// Reads a public key of 56 bytes (RFC 8554, section 5.3).
    ///
    /// `BadLength` comes where there are not 56 bytes, then `BadType` where one of the two type
    /// codes is unknown.
    pub fn read(bytes: &[u8]) -> Result<PublicKey, KeyFault>
        ensures key { IfOk result (λ key. bytes.now ≡ key_bytes key) }
        ensures length { (result ≡ Err KeyFault.BadLength) ↔ (length bytes.now ≢ 56) }
        ensures code { (result ≡ Err KeyFault.BadType) ↔ ((length bytes.now ≡ 56) × HasUnknownType bytes.now) }
    {
        if bytes.len() != 56 {
            return Err(KeyFault::BadLength);
        }
        let Some(lms) = LmsType::of_code(number_at(bytes, 0)) else {
            return Err(KeyFault::BadType);
        };
        let Some(ots) = OtsType::of_code(number_at(bytes, 4)) else {
            return Err(KeyFault::BadType);
        };
        let mut i = [0u8; 16];
        i.copy_from_slice(&bytes[8..24]);
        let root = block_at(bytes, 24);
        Ok(PublicKey { lms, ots, i, root })
    }

    /// The key's 56 bytes (RFC 8554, section 5.3).
    pub fn write(&self) -> [u8; 56]
        ensures { result ≡ key_bytes self.now }
    {
        let mut bytes = [0u8; 56];
        put(&mut bytes, 0, &self.lms.code().to_be_bytes());
        put(&mut bytes, 4, &self.ots.code().to_be_bytes());
        put(&mut bytes, 8, &self.i);
        put(&mut bytes, 24, &self.root);
        bytes
    }
}
