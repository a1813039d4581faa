//! A key that signs, of one level or of two.

ghost use Rattle.std.specs.Prelude.{◌≡◌, ◌+◌, ◌<◌, ◌≤◌, ◌^◌, length, IfOk};

use crate::below::Below;
use crate::drawing::{identifier_below, seed_below, stand_below};
use crate::linking::sign_below;
use crate::publishing::{hss_bytes, lms_bytes};
use crate::{LmsType, SecretKey};
use lmots::OtsType;
use std::alloc::{AllocError, Global};
use std::marker::Model;

/// A secret key with all that it needs to sign: its top tree, and with two levels the tree of one key below it.
/// Contracts see what it is drawn from.
#[derive(Drop)]
pub struct SigningKey {
    // Signs messages.
    last: SecretKey,
    // Signs the last key, where there are two levels.
    top: Option<SecretKey>,
    // Of the key on top.
    i: [u8; 16],
    seed: [u8; 32],
    // The leaf of the top key that signs the last key.
    leaf: u32,
    public: Vec<u8>,
}

impl Model for SigningKey {
    ghost use Rattle.lms_keys.specs.Keeping.{IsWhole, secret_in};
    ghost use Rattle.lms_keys.specs.HssSecret.{Secret};

    ghost Value = { Secret };

    ghost view = { λ s. secret_in s.top s.last };

    ghost invariant = { λ s. IsWhole s.top s.last s.i s.seed s.leaf s.public.items };
}

impl SigningKey {
    ghost use Rattle.std.specs.Prelude.{Option, None, Some};
    ghost use Rattle.lms_keys.specs.SigOk.{SigOk};
    ghost use Rattle.lms_keys.specs.LmsType.{height};
    ghost use Rattle.lms_keys.specs.HssSecret.{HasLeaves, height_of, public_bytes, signature, signature_len};

    /// Makes the key of one level with these types and identifier, from a seed.
    pub fn of_one(
        alloc: Global,
        lms: LmsType,
        ots: OtsType,
        i: [u8; 16],
        seed: [u8; 32],
    ) -> Result<SigningKey, AllocError>
        requires low { height lms ≤ 15 }
        ensures { IfOk result (λ key. key ≡ record {
          top = record { lms = lms; ots = ots; i = i; seed = seed };
          below = None;
        }) }
    {
        let Ok(last) = SecretKey::of(alloc, lms, ots, i, seed) else {
            return Err(AllocError);
        };
        let public = lms_bytes(alloc, &last.public())?;
        Ok(SigningKey {
            last,
            top: None,
            i,
            seed,
            leaf: 0,
            public,
        })
    }

    /// Makes the key of two levels with these types of its top key and of the keys below, and the tree of the key below
    /// leaf `leaf` of the top key.
    pub fn of_two(
        alloc: Global,
        lms: LmsType,
        ots: OtsType,
        i: [u8; 16],
        seed: [u8; 32],
        below: Below,
        leaf: u32,
    ) -> Result<SigningKey, AllocError>
        requires low { height lms + height below.lms ≤ 15 }
        ensures { IfOk result (λ key. key ≡ record {
          top = record { lms = lms; ots = ots; i = i; seed = seed };
          below = Some below;
        }) }
    {
        let Ok(top) = SecretKey::of(alloc, lms, ots, i, seed) else {
            return Err(AllocError);
        };
        let (first, second) = (
            identifier_below(&i, &seed, leaf),
            seed_below(&i, &seed, leaf),
        );
        let Ok(last) = SecretKey::of(alloc, below.lms, below.ots, first, second) else {
            return Err(AllocError);
        };
        let public = hss_bytes(alloc, &top.public())?;
        Ok(SigningKey {
            last,
            top: Some(top),
            i,
            seed,
            leaf,
            public,
        })
    }

    /// The public key: 56 bytes of one level (RFC 8554, section 5.3), or 60 of two (section 6.1).
    pub fn public_bytes(&self) -> &[u8]
        ensures { result.now ≡ public_bytes self.now }
    {
        self.public.as_slice()
    }

    /// The bytes of each of the key's signatures.
    pub fn signature_len(&self) -> usize
        ensures { result ≡ signature_len self.now }
    {
        match &self.top {
            None => self.last.signature_len(),
            Some(top) => 60 + top.signature_len() + self.last.signature_len(),
        }
    }

    /// Signs `message` with leaf `leaf`. With two levels a leaf of another key below makes that key first, in place.
    /// The caller sees to it that no leaf signs twice.
    pub fn sign_at(&mut self, leaf: u32, message: &[u8], out: &mut [u8])
        requires leaf { leaf < 2 ^ height_of self.old }
        requires room { length out.old ≡ signature_len self.old }
        ensures same { self.new ≡ self.old }
        ensures bytes { out.new ≡ signature self.old leaf message.now }
        ensures good { SigOk (public_bytes self.old) message.now out.new }
        ensures leaves { HasLeaves self.old leaf out.new }
    {
        let leaves = self.last.leaves();
        match &self.top {
            None => self.last.sign_at(leaf, message, out),
            Some(top) => {
                let above = leaf / leaves;
                stand_below(&mut self.last, self.leaf, above, &self.i, &self.seed);
                self.leaf = above;
                sign_below(top, &self.last, above, leaf % leaves, message, out);
            }
        }
    }
}
