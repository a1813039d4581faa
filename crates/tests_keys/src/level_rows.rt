//! Signatures of keys of up to eight levels, and of nine.

use crate::rows::want;
use crate::scenes::{I, MESSAGE, SEED, turn};
use lmots::OtsType;
use lms_keys::{LmsType, SecretKey, verify_any};
use octets::Memory;
use std::alloc::Global;
use std::test::Fail;

// A key of so many levels, of which this is the first.
fn key_of(alloc: Global, levels: u8, public: &[u8]) -> Result<Vec<u8>, Memory> {
    let mut key = Vec::from_slice(alloc, &[0, 0, 0, levels])?;
    key.extend_from_slice(public)?;
    Ok(key)
}

// A number of signed keys, each a link and the key behind it, and a signature.
fn text_of(
    alloc: Global,
    links: u8,
    link: &[u8],
    public: &[u8],
    last: &[u8],
) -> Result<Vec<u8>, Memory> {
    let mut text = Vec::from_slice(alloc, &[0, 0, 0, links])?;
    for _ in 0..links {
        text.extend_from_slice(link)?;
        text.extend_from_slice(public)?;
    }
    text.extend_from_slice(last)?;
    Ok(text)
}

// The key that signs itself so often, and then the message: u32str of the number of signed keys, these, and a
// signature. With none and one level it is the signature alone.
fn is_good_at(alloc: Global, secret: &SecretKey, levels: u8, links: u8) -> Result<bool, Fail> {
    if secret.leaves() < 2 {
        return Ok(false);
    }
    let public = secret.public().write();
    let mut link = vec![in alloc; 0u8; secret.signature_len()]?;
    secret.sign_at(0, &public, &mut link);
    let mut last = vec![in alloc; 0u8; secret.signature_len()]?;
    secret.sign_at(1, MESSAGE, &mut last);
    let key = key_of(alloc, levels, &public)?;
    let mut text = text_of(alloc, links, &link, &public, &last)?;
    let is_good = verify_any(&key, MESSAGE, &text);
    // A byte of the fifth link, where there is one.
    turn(&mut text, 20000, 1);
    Ok(is_good && (links < 5 || !verify_any(&key, MESSAGE, &text)))
}

// The levels of a key, the signed keys of a signature, and whether it is good.
const LEVELS: [(u8, u8, bool); 5] = [
    (8, 7, true),
    (8, 0, false),
    (1, 0, true),
    (1, 7, false),
    (9, 8, false),
];

#[test]
fn takes_eight_levels_and_one(rt: HostRuntime) -> Result<(), Fail> {
    let secret = SecretKey::of(rt.alloc(), LmsType::H5, OtsType::W2, I, SEED)?;
    for (row, (levels, links, is_good)) in LEVELS.into_iter().enumerate() {
        want(
            &rt,
            row,
            is_good_at(rt.alloc(), &secret, levels, links)? == is_good,
        );
    }
    Ok(())
}
