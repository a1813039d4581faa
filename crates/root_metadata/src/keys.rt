//! Keys that metadata lists, and their ids.

ghost use Rattle.std.specs.Prelude.{◌≡◌, IfOk};
ghost use Rattle.sha2.specs.Sha256.{sha256};

use crate::{Keyed, Rising};
use git_object::KeyId;
use octets::{Copied, Items, Memory, Octets};
use sha2::{Digest, Sha256};

/// A key of metadata: its id and the bytes of the public key.
#[derive(Drop)]
pub struct Key {
    pub id: KeyId,
    pub public: Octets,
}

/// A list of keys, in the order of the file that lists them.
pub type Keys = Items<Key>;

/// A set of ids of keys, in the order of their bytes.
pub type KeyIds = Rising<KeyId>;

impl Keyed for KeyId {
    ghost key = { λ id. id };

    fn key(&self) -> &[u8] {
        self.as_bytes()
    }
}

impl Copied for Key {
    fn copied(&self) -> Result<Key, Memory> {
        let public = self.public.copy()?;
        Ok(Key {
            id: self.id,
            public,
        })
    }
}

/// The id of a public key: the SHA-256 of its bytes. It takes no memory.
pub fn key_id(public: &[u8]) -> KeyId
    ensures { result ≡ sha256 public.now }
{
    KeyId(Sha256::digest(public))
}
