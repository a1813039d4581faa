//! The bytes of public keys.

ghost use Rattle.std.specs.Prelude.{◌≡◌, ◌++◌, IfOk};
ghost use Rattle.std.specs.Int.{w32, to_be_bytes};
ghost use Rattle.lms_keys.specs.PublicKey.{key_bytes};

use crate::PublicKey;
use lmots::pieces::put;
use std::alloc::{AllocError, Global};

// The number of levels, in front of the bytes of a top key.
const LEVELS: u32 = 2;

/// The 60 bytes of the public key of two levels with this top key (RFC 8554, section 6.1).
pub fn hss_public(key: &PublicKey) -> [u8; 60]
    ensures { result ≡ to_be_bytes w32 2 ++ key_bytes key.now }
{
    let mut bytes = [0u8; 60];
    put(&mut bytes, 0, &LEVELS.to_be_bytes());
    put(&mut bytes, 4, &key.write());
    bytes
}

/// The 56 bytes of a public key of one level.
pub fn lms_bytes(alloc: Global, key: &PublicKey) -> Result<Vec<u8>, AllocError>
    ensures { IfOk result (λ bytes. bytes.items ≡ key_bytes key.now) }
{
    Vec::from_slice(alloc, key.write().as_slice())
}

/// The 60 bytes of a public key of two levels.
pub fn hss_bytes(alloc: Global, key: &PublicKey) -> Result<Vec<u8>, AllocError>
    ensures { IfOk result (λ bytes. bytes.items ≡ to_be_bytes w32 2 ++ key_bytes key.now) }
{
    Vec::from_slice(alloc, hss_public(key).as_slice())
}
