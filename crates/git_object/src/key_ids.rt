//! Ids of keys.

ghost use Rattle.std.specs.Prelude.{◌≡◌, ◌↔◌, IfOk, IfSome, IsOk, IsSome};
ghost use Rattle.hex.specs.Hex.{encode_lower};
ghost use Rattle.text_reader.specs.Hexadecimal.{IsLowerHexadecimal};

use crate::id_digits::id_digits;
use octets::{Copied, Memory};
use std::alloc::AllocError;
use std::marker::Model;
use text_reader::read_hexadecimal;

/// The id of a key: 32 bytes, ordered by bytes.
#[derive(Copy, Debug, PartialEq, Eq, PartialOrd, Ord)]
pub struct KeyId(pub [u8; 32]);

impl Model for KeyId {
    ghost use Rattle.std.specs.Prelude.{ℕ, List};

    ghost Value = { List ℕ };

    ghost use Rattle.git_object.specs.Ids.{IsId};

    ghost view = { λ s. s.0 };

    ghost invariant = { λ s. IsId s.0 };

    ghost inverse = { λ bytes. record { 0 = bytes } };
}

impl Clone for KeyId {
    ghost is_clone = { λ a b. b ≡ a };

    ghost is_infallible = { λ _. Unit {0} };

    fn clone(&self) -> Result<KeyId, AllocError> {
        Ok(*self)
    }
}

impl Copied for KeyId {
    /// The same id. It takes no memory and is never refused.
    fn copied(&self) -> Result<KeyId, Memory>
        ensures copy { IfOk result (λ copy. copy ≡ self.now) }
        ensures free { IsOk result }
    {
        Ok(*self)
    }
}

impl KeyId {
    ghost use Rattle.git_object.specs.Ids.{IsId};

    /// The bytes of the id.
    pub fn as_bytes(&self) -> &[u8; 32]
        ensures bytes { result.now ≡ self.now }
        ensures valid { IsId self.now }
    {
        &self.0
    }

    /// The id that exactly 64 lower-case hexadecimal digits write; None for any other text. It takes no memory.
    pub fn from_hex(text: &[u8]) -> Option<KeyId>
        ensures found { IsSome result ↔ IsLowerHexadecimal 32 text.now }
        ensures value { IfSome result (λ id. encode_lower id ≡ text.now) }
        ensures valid { IfSome result IsId }
    {
        let bytes = read_hexadecimal::<32>(text)?;
        Some(KeyId(bytes))
    }

    /// The id as 64 lower-case hexadecimal digits. It takes no memory.
    pub fn to_hex(&self) -> [u8; 64]
        ensures { result ≡ encode_lower self.now }
    {
        id_digits(self.0)
    }
}
