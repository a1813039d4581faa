use crate::rows::want;
use crate::scenes::MESSAGE;
use edge_io::MemDisk;
use leaf_journal::{SignFault, Signer};
use lms_keys::verify_any;
use octets::Octets;
use std::alloc::Global;
use std::test::Fail;

// The bytes of a signature up to the one by the key below, with two trees of 5 levels and width 1.
const LINK: usize = 8744;

// The header of a key file of two levels of 5 and width 1.
const HEADER: &[u8; 72] =
    b"LMSKEY02\0\0\0\x05\0\0\0\x010123456789abcdefthirty-two bytes make this seed.\
\0\0\0\x05\0\0\0\x01";

const LEAVES: usize = 1024;

// The first bytes of a text.
fn front(bytes: &[u8], len: usize) -> &[u8] {
    bytes.get(..len).unwrap_or(&[])
}

// A disk with a new key file of two levels, of which the first leaves are used, and of which a call fails.
fn disk_with(alloc: Global, used: usize, call: u64) -> Result<MemDisk, Fail> {
    let mut file = Vec::from_slice(alloc, HEADER.as_slice())?;
    file.extend_from_slice(&[0; LEAVES])?;
    for leaf in 0..used {
        if let Some(place) = file.as_mut_slice().get_mut(leaf.saturating_add(72)) {
            *place = 1;
        }
    }
    let content = Octets::from_vec(file);
    Ok(MemDisk::failing(content, 64, 64, vec![in alloc; call]?)?)
}

// A leaf that signed, or why none did, and what was written then.
type Signed = (Result<u32, SignFault>, Vec<u8>);

// Whether a signature is good where there is one.
fn is_as_said(public: &[u8], signed: &Signed) -> bool {
    signed.0.is_err() || verify_any(public, MESSAGE, signed.1.as_slice())
}

// Opens a signer and signs twice by it. A signature has to be good.
fn sign_twice(alloc: Global, disk: &mut MemDisk) -> Result<(Signed, Signed), Fail> {
    let Ok(mut signer) = Signer::load(alloc, disk) else {
        return Err(Fail::from("a signer"));
    };
    let mut out = vec![in alloc; 7u8; signer.signature_len()]?;
    let leaf = signer.sign(disk, MESSAGE, out.as_mut_slice());
    let first = (leaf, out);
    let mut out = vec![in alloc; 7u8; signer.signature_len()]?;
    let leaf = signer.sign(disk, MESSAGE, out.as_mut_slice());
    let second = (leaf, out);
    if is_as_said(signer.public_bytes(), &first) && is_as_said(signer.public_bytes(), &second) {
        Ok((first, second))
    } else {
        Err(Fail::from("a good signature"))
    }
}

// A signer goes from one key below to the next without being opened again, and each of them is signed in one way.
#[test]
fn the_key_below_changes_after_its_last_leaf(rt: HostRuntime) -> Result<(), Fail> {
    let alloc = rt.alloc();
    let mut disk = disk_with(alloc, 31, 0)?;
    let ((last, one), (first, two)) = sign_twice(alloc, &mut disk)?;
    let ((next, three), _) = sign_twice(alloc, &mut disk)?;
    assert!(rt; (last, first, next) == (Ok(31), Ok(32), Ok(33)));
    assert!(rt; front(one.as_slice(), LINK) != front(two.as_slice(), LINK));
    assert!(rt; front(three.as_slice(), LINK) == front(two.as_slice(), LINK));
    assert!(rt; one.len() == 17428);
    Ok(())
}

// The leaves that sign with one signer, until a call fails.
fn leaves_of(alloc: Global, disk: &mut MemDisk) -> Result<Vec<u32>, Fail> {
    let (first, second) = sign_twice(alloc, disk)?;
    let mut leaves = Vec::new(alloc);
    if let Ok(leaf) = first.0 {
        leaves.push(leaf)?;
        if let Ok(leaf) = second.0 {
            leaves.push(leaf)?;
        }
    }
    Ok(leaves)
}

// Whether the leaf that signs over what a stop left, with this byte at the leaf that was to sign, is another one.
fn signs_with_another(
    alloc: Global,
    left: &[u8],
    at: usize,
    byte: u8,
    leaves: &[u32],
) -> Result<bool, Fail> {
    let mut image = Vec::from_slice(alloc, left)?;
    if let Some(place) = image.as_mut_slice().get_mut(at) {
        *place = byte;
    }
    let mut disk = MemDisk::new(Octets::from_vec(image), 8, 8)?;
    let ((signed, _), _) = sign_twice(alloc, &mut disk)?;
    match signed {
        Ok(leaf) => Ok(!leaves.contains(&leaf)),
        Err(_) => Err(Fail::from("a leaf")),
    }
}

// The call that fails, and how many leaves signed before it.
const STOPS: [(u64, usize); 4] = [(4, 0), (5, 0), (6, 1), (7, 1)];

// Three calls open a signer and two sign. After a stop at any call around the change of the key below, whatever byte it
// left at the leaf that was to sign, no leaf that signed signs again.
#[test]
fn no_leaf_signs_again_after_a_stop_between_two_keys(rt: HostRuntime) -> Result<(), Fail> {
    let alloc = rt.alloc();
    for (row, (call, signed)) in STOPS.into_iter().enumerate() {
        let mut disk = disk_with(alloc, 31, call)?;
        let leaves = leaves_of(alloc, &mut disk)?;
        want(&rt, row, leaves.len() == signed);
        let (left, at) = (disk.contents(), signed.saturating_add(103));
        want(
            &rt,
            row,
            signs_with_another(alloc, left, at, 0, leaves.as_slice())?,
        );
        want(
            &rt,
            row,
            signs_with_another(alloc, left, at, 255, leaves.as_slice())?,
        );
    }
    Ok(())
}
