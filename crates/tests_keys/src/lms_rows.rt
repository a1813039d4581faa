use crate::rows::want;
use crate::scenes::{I, MESSAGE, SEED, turn};
use lmots::OtsType;
use lms_keys::*;
use sha2::{Digest, Sha256};
use std::alloc::Global;
use std::test::Fail;

// What Bouncy Castle makes of these with H5 (tools/lms-vectors): the type, the leaf, the root,
// and the SHA-256 of the signature.
const MADE_ELSEWHERE: [(OtsType, u32, [u8; 32], [u8; 32]); 4] = [
    (
        OtsType::W1,
        5,
        [
            0xc1, 0xc0, 0x49, 0xc6, 0xc7, 0xb7, 0x32, 0x6e, 0x2e, 0xea, 0x39, 0x3c, 0x14, 0xd6,
            0xd2, 0x56, 0xb1, 0xd6, 0x47, 0xd2, 0x76, 0x1e, 0xa8, 0x68, 0x1d, 0x73, 0x88, 0x95,
            0xe0, 0xf6, 0x68, 0xab,
        ],
        [
            0x86, 0x40, 0xd6, 0xb8, 0x1b, 0xce, 0x87, 0x59, 0x9a, 0x81, 0xb9, 0x4f, 0x1c, 0xbc,
            0xbb, 0x08, 0x45, 0xde, 0x57, 0x9d, 0x61, 0x79, 0x3a, 0x74, 0x7c, 0x5e, 0x75, 0xe7,
            0xfe, 0x98, 0x4b, 0x80,
        ],
    ),
    (
        OtsType::W2,
        0,
        [
            0x53, 0x71, 0x2e, 0x00, 0x72, 0xad, 0xf9, 0xd9, 0x5e, 0x0f, 0x05, 0x27, 0xca, 0xf9,
            0x4c, 0xb8, 0xf8, 0x54, 0x99, 0x67, 0x09, 0xf5, 0xbb, 0xcf, 0xa5, 0xa2, 0x06, 0xc0,
            0xfd, 0xc0, 0xb0, 0xd5,
        ],
        [
            0x69, 0x03, 0x46, 0x59, 0xbc, 0x73, 0x9f, 0xd9, 0x57, 0x43, 0x68, 0x48, 0x48, 0x21,
            0x2b, 0x9a, 0xb8, 0x12, 0x10, 0x4c, 0x83, 0xdb, 0x3b, 0x8f, 0x5f, 0x02, 0xc2, 0x40,
            0x58, 0xa9, 0xc9, 0x77,
        ],
    ),
    (
        OtsType::W4,
        31,
        [
            0x95, 0x26, 0x02, 0xd0, 0x0c, 0x0e, 0x1c, 0xba, 0x7c, 0xf2, 0x77, 0x84, 0xfb, 0xa1,
            0xc7, 0x5b, 0x1a, 0x8b, 0x16, 0x04, 0x75, 0xa2, 0x56, 0x46, 0x46, 0x69, 0x91, 0xe0,
            0x08, 0xf1, 0xdc, 0xf8,
        ],
        [
            0x2e, 0x68, 0x50, 0xb6, 0xa3, 0x52, 0x71, 0x87, 0xaa, 0xae, 0x62, 0x06, 0x0a, 0x27,
            0xd9, 0xcb, 0x48, 0x4d, 0xfa, 0x36, 0xfe, 0x70, 0x96, 0x62, 0x2e, 0xf9, 0x66, 0x68,
            0xe2, 0x3c, 0x89, 0xa1,
        ],
    ),
    (
        OtsType::W8,
        18,
        [
            0xd1, 0x7f, 0x2c, 0x8b, 0xd8, 0xb8, 0x1c, 0x7b, 0x14, 0xda, 0x7e, 0x72, 0xb1, 0x84,
            0x97, 0x40, 0x55, 0xf1, 0x85, 0xda, 0xa4, 0x23, 0xf9, 0xd3, 0xb6, 0x3c, 0x27, 0xea,
            0x9d, 0xa3, 0xad, 0x05,
        ],
        [
            0x2f, 0x07, 0x50, 0x48, 0x1b, 0xb0, 0x73, 0xce, 0x56, 0x9b, 0xe1, 0x94, 0xbe, 0x16,
            0x39, 0x10, 0x41, 0x04, 0xec, 0xdf, 0x27, 0x2c, 0xfd, 0x3a, 0x29, 0xf7, 0x4d, 0x29,
            0x70, 0xa8, 0x2f, 0xaa,
        ],
    ),
];

// Signs with a leaf of the key of 5 levels and this one-time type.
fn signed(alloc: Global, kind: OtsType, q: u32) -> Result<(PublicKey, Vec<u8>), Fail> {
    let secret = SecretKey::of(alloc, LmsType::H5, kind, I, SEED)?;
    let mut signature = vec![in alloc; 0u8; secret.signature_len()]?;
    if secret.leaves() != 32 || q >= secret.leaves() {
        return Err(Fail::from("a leaf"));
    }
    secret.sign_at(q, MESSAGE, &mut signature);
    Ok((secret.public(), signature))
}

fn has_root(public: &PublicKey, kind: OtsType, root: [u8; 32]) -> bool {
    let key = PublicKey {
        lms: LmsType::H5,
        ots: kind,
        i: I,
        root,
    };
    *public == key
}

// A signature is good for its message, its key and its length, and for no other.
fn is_good_alone(public: &PublicKey, signature: &[u8], longer: &[u8]) -> bool {
    let other = PublicKey {
        lms: LmsType::H10,
        ..*public
    };
    verify(public, MESSAGE, signature)
        && verify_any(&public.write(), MESSAGE, signature)
        && !verify(public, b"another message", signature)
        && !verify(&other, MESSAGE, signature)
        && !verify(public, MESSAGE, longer)
}

fn is_good_shortened(public: &PublicKey, signature: &[u8]) -> bool {
    match signature.split_last() {
        Some((_, front)) => verify(public, MESSAGE, front),
        None => true,
    }
}

// A changed signature is good no more, and is good once it is as before.
fn is_refused_changed(public: &PublicKey, signature: &mut [u8], at: usize, bits: u8) -> bool {
    turn(signature, at, bits);
    let refused = !verify(public, MESSAGE, signature);
    turn(signature, at, bits);
    refused && at < signature.len() && verify(public, MESSAGE, signature)
}

// The places of the leaf's number, where it is another and where it is 32, which is none, of the two type codes, and of
// the last byte, each with the bits to turn.
fn changes_of(kind: OtsType, q: u32) -> [(usize, u8); 5] {
    let one_time_len = kind.signature_len();
    let last = LmsType::H5.signature_len(kind).saturating_sub(1);
    [
        (3, 1),
        (3, q.to_be_bytes()[3] ^ 32),
        (7, 7),
        (one_time_len.saturating_add(7), 3),
        (last, 1),
    ]
}

// Each changed part of a signature is refused.
fn are_refused_changed(public: &PublicKey, signature: &mut [u8], changes: &[(usize, u8)]) -> bool {
    for (at, bits) in changes {
        if !is_refused_changed(public, signature, *at, *bits) {
            return false;
        }
    }
    true
}

#[test]
fn agrees_with_another_implementation(rt: HostRuntime) -> Result<(), Fail> {
    for (row, (kind, q, root, digest)) in MADE_ELSEWHERE.into_iter().enumerate() {
        let (public, mut signature) = signed(rt.alloc(), kind, q)?;
        want(&rt, row, has_root(&public, kind, root));
        want(&rt, row, Sha256::digest(signature.as_slice()) == digest);
        let changes = changes_of(kind, q);
        want(
            &rt,
            row,
            are_refused_changed(&public, &mut signature, &changes),
        );
        let mut longer = Vec::from_slice(rt.alloc(), signature.as_slice())?;
        longer.push(0)?;
        want(&rt, row, is_good_alone(&public, &signature, &longer));
        want(&rt, row, !is_good_shortened(&public, &signature));
    }
    Ok(())
}

// RFC 8554, appendix F, test case 2, the second level: I, SEED and T[1] of a key with H5 and W8.
const STANDARD_I: [u8; 16] = [
    0x21, 0x5f, 0x83, 0xb7, 0xcc, 0xb9, 0xac, 0xbc, 0xd0, 0x8d, 0xb9, 0x7b, 0x0d, 0x04, 0xdc, 0x2b,
];

const STANDARD_SEED: [u8; 32] = [
    0xa1, 0xc4, 0x69, 0x6e, 0x26, 0x08, 0x03, 0x5a, 0x88, 0x61, 0x00, 0xd0, 0x5c, 0xd9, 0x99, 0x45,
    0xeb, 0x33, 0x70, 0x73, 0x18, 0x84, 0xa8, 0x23, 0x5e, 0x2f, 0xb3, 0xd4, 0xd7, 0x1f, 0x25, 0x47,
];

const STANDARD_ROOT: [u8; 32] = [
    0xa1, 0xcd, 0x03, 0x58, 0x33, 0xe0, 0xe9, 0x00, 0x59, 0x60, 0x3f, 0x26, 0xe0, 0x7a, 0xd2, 0xaa,
    0xd1, 0x52, 0x33, 0x8e, 0x7a, 0x5e, 0x59, 0x84, 0xbc, 0xd5, 0xf7, 0xbb, 0x4e, 0xba, 0x40, 0xb7,
];

#[test]
fn agrees_with_the_standard(rt: HostRuntime) -> Result<(), Fail> {
    let (lms, ots) = (LmsType::H5, OtsType::W8);
    let secret = SecretKey::of(rt.alloc(), lms, ots, STANDARD_I, STANDARD_SEED)?;
    assert!(rt; secret.public().root == STANDARD_ROOT);
    Ok(())
}

// The place of a byte of a key's type codes, and another byte.
const CHANGED_CODES: [(usize, u8); 5] = [(3, 4), (3, 10), (7, 0), (7, 5), (0, 1)];

// A key with another byte in the place of a type code is none.
fn is_refused_as_key(bytes: [u8; 56], at: usize, code: u8) -> bool {
    let mut other = bytes;
    if let Some(byte) = other.get_mut(at) {
        *byte = code;
    }
    matches!(PublicKey::read(&other), Err(KeyFault::BadType))
}

fn is_refused_as_short(bytes: &[u8]) -> bool {
    matches!(PublicKey::read(bytes), Err(KeyFault::BadLength))
}

#[test]
fn reads_what_is_written(rt: HostRuntime) {
    let public = PublicKey {
        lms: LmsType::H25,
        ots: OtsType::W2,
        i: I,
        root: SEED,
    };
    let bytes = public.write();
    assert!(rt; bytes.starts_with(&[0, 0, 0, 9, 0, 0, 0, 2]));
    assert!(rt; matches!(PublicKey::read(&bytes), Ok(found) if found == public));
    assert!(rt; is_refused_as_short(&bytes[..55]) && is_refused_as_short(b""));
    for (row, (at, code)) in CHANGED_CODES.into_iter().enumerate() {
        want(&rt, row, is_refused_as_key(bytes, at, code));
    }
}

// RFC 8554, section 5.1, table 2: the type, its code, and its height; and the length of a signature
// with W8, which is 8 bytes, those of the one-time signature, and 32 for each level.
const CODES: [(LmsType, u32, u32, usize); 5] = [
    (LmsType::H5, 5, 5, 1292),
    (LmsType::H10, 6, 10, 1452),
    (LmsType::H15, 7, 15, 1612),
    (LmsType::H20, 8, 20, 1772),
    (LmsType::H25, 9, 25, 1932),
];

fn has_numbers(lms: LmsType, code: u32, height: u32, len: usize) -> bool {
    lms.code() == code
        && LmsType::of_code(code) == Some(lms)
        && lms.height() == height
        && lms.leaves().count_ones() == 1
        && lms.leaves().trailing_zeros() == height
        && lms.signature_len(OtsType::W8) == len
}

#[test]
fn numbers_are_those_of_the_standard(rt: HostRuntime) {
    for (row, (lms, code, height, len)) in CODES.into_iter().enumerate() {
        want(&rt, row, has_numbers(lms, code, height, len));
    }
    assert!(rt; LmsType::of_code(4).is_none() && LmsType::of_code(10).is_none());
}
