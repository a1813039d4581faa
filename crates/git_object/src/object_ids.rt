//! Object ids in the object format SHA-256.

ghost use Rattle.std.specs.Prelude.{◌≡◌, ◌≢◌, ◌↔◌, ◌++◌, ℕ, List, IfSome, IfNone, IfOk, IsOk, IsSome, replicate};
ghost use Rattle.hex.specs.Hex.{encode_lower};
ghost use Rattle.text_reader.specs.Hexadecimal.{IsLowerHexadecimal};
ghost use Rattle.git_object.specs.Objects.{object_id};

use crate::Kind;
use crate::id_digits::id_digits;
use itoa::Buffer;
use octets::{Copied, Memory};
use sha2::{Digest, Sha256};
use std::alloc::AllocError;
use std::marker::Model;
use text_reader::{read_hexadecimal, split_front};

/// The id of an object: 32 bytes, ordered by bytes.
#[derive(Copy, Debug, PartialEq, Eq, PartialOrd, Ord)]
pub struct ObjectId(pub [u8; 32]);

impl Model for ObjectId {
    ghost use Rattle.std.specs.Prelude.{ℕ, List};

    ghost Value = { List ℕ };

    ghost use Rattle.git_object.specs.Ids.{IsId};

    ghost view = { λ s. s.0 };

    ghost invariant = { λ s. IsId s.0 };

    ghost inverse = { λ bytes. record { 0 = bytes } };
}

impl Clone for ObjectId {
    ghost is_clone = { λ a b. b ≡ a };

    ghost is_infallible = { λ _. Unit {0} };

    fn clone(&self) -> Result<ObjectId, AllocError> {
        Ok(*self)
    }
}

impl Copied for ObjectId {
    /// The same id. It takes no memory and is never refused.
    fn copied(&self) -> Result<ObjectId, Memory>
        ensures copy { IfOk result (λ copy. copy ≡ self.now) }
        ensures free { IsOk result }
    {
        Ok(*self)
    }
}

impl ObjectId {
    ghost use Rattle.git_object.specs.Ids.{IsId, zeros};

    /// The id of 32 zero bytes, which no object is taken to have. It stands for a reference that is not there.
    pub fn zeros() -> ObjectId
        ensures { result ≡ zeros }
    {
        ObjectId([0; 32])
    }

    /// The bytes of the id.
    pub fn as_bytes(&self) -> &[u8; 32]
        ensures bytes { result.now ≡ self.now }
        ensures valid { IsId self.now }
    {
        &self.0
    }

    /// The id that exactly 64 lower-case hexadecimal digits write; None for any other text. It takes no memory.
    pub fn from_hex(text: &[u8]) -> Option<ObjectId>
        ensures found { IsSome result ↔ IsLowerHexadecimal 32 text.now }
        ensures value { IfSome result (λ id. encode_lower id ≡ text.now) }
        ensures valid { IfSome result IsId }
    {
        let bytes = read_hexadecimal::<32>(text)?;
        Some(ObjectId(bytes))
    }

    /// The id that 64 lower-case hexadecimal digits in front of the text write, and what follows them; None
    /// where no id is written there.
    pub fn split_front(text: &[u8]) -> Option<(ObjectId, &[u8])>
        ensures found { IfSome result (λ parts. text.now ≡ encode_lower parts.0 ++ parts.1.now) }
        ensures valid { IfSome result (λ parts. IsId parts.0) }
        ensures none { IfNone result ((id rest : List ℕ) → IsId id → text.now ≢ encode_lower id ++ rest) }
    {
        let Some((digits, rest)) = split_front(text, 64) else {
            return None;
        };
        let Some(id) = ObjectId::from_hex(digits) else {
            return None;
        };
        Some((id, rest))
    }

    /// The id as 64 lower-case hexadecimal digits. It takes no memory.
    pub fn to_hex(&self) -> [u8; 64]
        ensures { result ≡ encode_lower self.now }
    {
        id_digits(self.0)
    }
}

/// The id of a body under its kind: the SHA-256 of the kind's word, a space, the body's length in decimal, a
/// zero byte and the body (Git's object names). It takes no memory.
pub fn id_of(kind: Kind, body: &[u8]) -> ObjectId
    ensures { result ≡ object_id kind body.now }
{
    let mut digits = Buffer::new();
    let mut hasher = Sha256::new();
    hasher.update(kind.name());
    hasher.update(b" ");
    hasher.update(digits.format(body.len()));
    hasher.update([0]);
    hasher.update(body);
    ObjectId(hasher.finalize())
}
