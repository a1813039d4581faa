//! A signature of two levels, out of its parts (RFC 8554, section 6.2).

ghost use Rattle.std.specs.Prelude.{◌≡◌, ◌+◌, ◌<◌, ◌^◌, ◌++◌, length};
ghost use Rattle.lms_keys.specs.LmsType.{height, signature_len};
ghost use Rattle.lms_keys.specs.Secret as one;
ghost use Rattle.lms_keys.specs.HssSecret.{link_by, link_len};

use crate::SecretKey;
use lmots::pieces::put;

// The number of signed public keys, in front of them.
const SIGNED_KEYS: u32 = 1;

// Writes the link from a leaf of the top key to the key that signs messages.
fn put_link(top: &SecretKey, last: &SecretKey, leaf: u32, out: &mut [u8])
    requires leaf { leaf < 2 ^ height top.now.lms }
    requires room { length out.old ≡ link_len top.now }
    ensures { out.new ≡ link_by top.now last.now leaf }
{
    let key = last.public().write();
    let (levels, rest) = out.split_at_mut(4);
    put(levels, 0, &SIGNED_KEYS.to_be_bytes());
    let (signature, behind) = rest.split_at_mut(top.signature_len());
    top.sign_at(leaf, key.as_slice(), signature);
    put(behind, 0, &key);
}

/// Writes the signature of `message` with leaf `q` of the last key, which leaf `leaf` of the top key signs.
pub fn sign_below(
    top: &SecretKey,
    last: &SecretKey,
    leaf: u32,
    q: u32,
    message: &[u8],
    out: &mut [u8],
)
    requires leaf { leaf < 2 ^ height top.now.lms }
    requires last { q < 2 ^ height last.now.lms }
    requires room { length out.old ≡ link_len top.now + signature_len last.now.lms last.now.ots }
    ensures { out.new ≡ link_by top.now last.now leaf ++ one.signature last.now q message.now }
{
    let (link, signature) = out.split_at_mut(60 + top.signature_len());
    put_link(top, last, leaf, link);
    last.sign_at(q, message, signature);
}
