//! A signature that was found good.

ghost use Rattle.std.specs.Prelude.{◌≡◌, true, IsTrue};
ghost use Rattle.lms_keys.specs.Deciding.{is_good};

use octets::{Memory, Octets};
use std::alloc::Global;
use std::marker::Model;
use text_reader::same_bytes;

/// A public key, bytes, and a signature of them that is good by it.
#[derive(Drop)]
pub struct GoodSignature {
    public: Octets,
    signed: Octets,
    signature: Octets,
}

impl Model for GoodSignature {
    ghost use Rattle.std.specs.Prelude.{◌≡◌, true};
    ghost use Rattle.lms_keys.specs.Deciding.{is_good};
    ghost use Rattle.known_signers.specs.Signed.{Signed};

    ghost Value = { Signed };

    ghost view = { λ g. record { public = g.public; signed = g.signed; signature = g.signature } };

    ghost invariant = { λ g. is_good g.public g.signed g.signature ≡ true };
}

impl GoodSignature {
    /// That this signature of these bytes is good by the key.
    pub fn of(
        alloc: Global,
        public: &[u8],
        signed: &[u8],
        signature: &[u8],
    ) -> Result<GoodSignature, Memory>
        requires { is_good public.now signed.now signature.now ≡ true }
    {
        let public = Octets::from_slice(alloc, public)?;
        let signed = Octets::from_slice(alloc, signed)?;
        let signature = Octets::from_slice(alloc, signature)?;
        Ok(GoodSignature {
            public,
            signed,
            signature,
        })
    }

    /// Whether it is this signature of these bytes, by this key.
    pub fn is_same(&self, public: &[u8], signed: &[u8], signature: &[u8]) -> bool
        ensures { IsTrue result → is_good public.now signed.now signature.now ≡ true }
    {
        if !same_bytes(self.public.as_slice(), public) {
            return false;
        }
        if !same_bytes(self.signed.as_slice(), signed) {
            return false;
        }
        same_bytes(self.signature.as_slice(), signature)
    }
}
