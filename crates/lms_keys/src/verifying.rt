//! Whether a signature is good.

ghost use Rattle.std.specs.Prelude.{◌≡◌, ◌↔◌, IsTrue};
ghost use Rattle.lms_keys.specs.Deciding.{is_good};
ghost use Rattle.lms_keys.specs.PublicKey.{key_bytes};
ghost use Rattle.lms_keys.specs.Signature.{IsSignature};
ghost use Rattle.lms_keys.specs.SigOk.{AreSignedKeys, HssSigOk, LmsSigOk, SigOk};

use crate::nodes::{climb, leaf_value};
use crate::public_key::PublicKey;
use lmots::candidate_key;
use lmots::pieces::number_at;

// The most levels of a key (RFC 8554, section 6).
const MOST_LEVELS: u32 = 8;

fn is_signature(public: &PublicKey, message: &[u8], signature: &[u8]) -> bool
    ensures { IsTrue result ↔ IsSignature public.now message.now signature.now }
{
    if signature.len() != public.lms.signature_len(public.ots) {
        return false;
    }
    let len = public.ots.signature_len();
    let q = number_at(signature, 0);
    if q >= public.lms.leaves() {
        return false;
    }
    if number_at(signature, 4 + len) != public.lms.code() {
        return false;
    }
    let (_, rest) = signature.split_at(4);
    let (one_time, _) = rest.split_at(len);
    let Ok(key) = candidate_key(public.ots, &public.i, q, message, one_time) else {
        return false;
    };
    let leaf = public.lms.leaves() + q;
    let (_, path) = signature.split_at(8 + len);
    climb(
        &public.i,
        leaf,
        leaf_value(&public.i, leaf, &key),
        path,
        public.lms.height(),
    ) == public.root
}

/// Whether the bytes are a good signature of `message` for this key (RFC 8554, section 5.4.2).
pub fn verify(public: &PublicKey, message: &[u8], signature: &[u8]) -> bool
    ensures { IsTrue result ↔ SigOk (key_bytes public.now) message.now signature.now }
{
    is_signature(public, message, signature)
}

// By the 56 bytes of an LMS key.
fn verify_lms(public: &[u8], message: &[u8], signature: &[u8]) -> bool
    ensures { IsTrue result ↔ LmsSigOk public.now message.now signature.now }
{
    let Ok(key) = PublicKey::read(public) else {
        return false;
    };
    is_signature(&key, message, signature)
}

// By an LMS key and so many signed public keys below it.
fn verify_signed(count: u32, public: &[u8], message: &[u8], signature: &[u8]) -> bool
    ensures { IsTrue result ↔ AreSignedKeys count public.now message.now signature.now }
{
    if count == 0 {
        return verify_lms(public, message, signature);
    }
    let Ok(key) = PublicKey::read(public) else {
        return false;
    };
    let len = key.lms.signature_len(key.ots);
    if signature.len() < len + 56 {
        return false;
    }
    let (link, rest) = signature.split_at(len);
    let (next, below) = rest.split_at(56);
    if !is_signature(&key, next, link) {
        return false;
    }
    verify_signed(count - 1, next, message, below)
}

// By the 60 bytes of an HSS key.
fn verify_hss(public: &[u8], message: &[u8], signature: &[u8]) -> bool
    ensures { IsTrue result ↔ HssSigOk public.now message.now signature.now }
{
    if public.len() != 60 || signature.len() < 4 {
        return false;
    }
    let levels = number_at(public, 0);
    if levels == 0 || levels > MOST_LEVELS || number_at(signature, 0) != levels - 1 {
        return false;
    }
    let (_, first) = public.split_at(4);
    let (_, rest) = signature.split_at(4);
    verify_signed(levels - 1, first, message, rest)
}

// By the bytes of either key, which their number tells apart.
fn verify_by_length(public: &[u8], message: &[u8], signature: &[u8]) -> bool
    ensures { IsTrue result ↔ SigOk public.now message.now signature.now }
{
    if public.len() == 56 {
        verify_lms(public, message, signature)
    } else {
        verify_hss(public, message, signature)
    }
}

/// Whether the bytes are a good signature of `message` by the public key that `public` spells: 56
/// bytes of an LMS key (RFC 8554, section 5.3), or 60 of an HSS key of one to eight levels (section
/// 6.1). Any other bytes are no key, and nothing is good by them.
pub fn verify_any(public: &[u8], message: &[u8], signature: &[u8]) -> bool
    ensures good { IsTrue result ↔ SigOk public.now message.now signature.now }
    ensures test { result ≡ is_good public.now message.now signature.now }
{
    verify_by_length(public, message, signature)
}
