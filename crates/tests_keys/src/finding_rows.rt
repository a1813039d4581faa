//! What dossiers show, over keys of one level and of two.

use evidence::{Dossier, Finding, find};
use git_object::{ObjectId, RefName};
use lmots::OtsType;
use lms_keys::{LmsType, SecretKey};
use octets::{Memory, Octets};
use root_metadata::key_id;
use rsl_chain::{Draft, EntryBody, join_signature};
use std::alloc::Global;
use std::process::Abort;
use std::test::Fail;

// Which key signs: of one level, or a leaf of the top key and by that a key below it.
#[derive(Clone, Copy)]
enum Signer {
    One,
    Below { leaf: u32, first: bool },
}

// A signed entry: who signs with which leaf, its number and what it records.
#[derive(Clone, Copy)]
struct Side {
    signer: Signer,
    leaf: u32,
    number: u64,
    target: u8,
}

// The top key and two keys below it; the top key signs alone too.
#[derive(Drop)]
struct Keys {
    top: SecretKey,
    first: SecretKey,
    second: SecretKey,
}

fn keys_of(alloc: Global) -> Result<Keys, Fail> {
    let seed = *b"thirty-two bytes make this seed.";
    Ok(Keys {
        top: SecretKey::of(alloc, LmsType::H5, OtsType::W1, [1; 16], seed)?,
        first: SecretKey::of(alloc, LmsType::H5, OtsType::W1, [2; 16], seed)?,
        second: SecretKey::of(alloc, LmsType::H5, OtsType::W1, [3; 16], seed)?,
    })
}

fn sign(alloc: Global, key: &SecretKey, leaf: u32, message: &[u8]) -> Result<Vec<u8>, Fail> {
    let mut signature = vec![in alloc; 0u8; key.signature_len()]?;
    if leaf >= key.leaves() {
        return Err(Fail::from("a leaf"));
    }
    key.sign_at(leaf, message, &mut signature);
    Ok(signature)
}

fn signature_of(alloc: Global, keys: &Keys, side: &Side, message: &[u8]) -> Result<Octets, Fail> {
    let mut text = Octets::new(alloc);
    match side.signer {
        Signer::One => text.append(&sign(alloc, &keys.top, side.leaf, message)?)?,
        Signer::Below { leaf, first } => {
            let below = if first { &keys.first } else { &keys.second };
            let public = below.public().write();
            text.append(&[0, 0, 0, 1])?;
            text.append(&sign(alloc, &keys.top, leaf, &public)?)?;
            text.append(&public)?;
            text.append(&sign(alloc, below, side.leaf, message)?)?;
        }
    }
    Ok(text)
}

fn public_of(alloc: Global, keys: &Keys, signer: Signer) -> Result<Octets, Memory> {
    let mut public = Octets::new(alloc);
    match signer {
        Signer::One => {}
        Signer::Below { leaf: _, first: _ } => public.append(&[0, 0, 0, 2])?,
    }
    public.append(&keys.top.public().write())?;
    Ok(public)
}

fn draft_of(alloc: Global, side: &Side) -> Result<Octets, Fail> {
    let Ok(name) = RefName::read(alloc, b"refs/heads/main") else {
        return Err(Fail::from("a name"));
    };
    let Some(target) = ObjectId::from_hex(&[side.target; 64]) else {
        return Err(Fail::from("a target"));
    };
    let draft = Draft {
        parent: (side.number > 1).then_some(target),
        author: Octets::from_slice(alloc, b"A <a@example.org> 1700000000 +0000")?,
        number: side.number,
        body: EntryBody::Reference { name, target },
    };
    Ok(draft.unsigned(alloc)?)
}

// The body of the signed entry.
fn body_of(alloc: Global, keys: &Keys, side: &Side) -> Result<Octets, Fail> {
    let text = draft_of(alloc, side)?;
    let public = public_of(alloc, keys, side.signer)?;
    let signature = signature_of(alloc, keys, side, text.as_slice())?;
    let id = key_id(public.as_slice());
    Ok(join_signature(alloc, text.as_slice(), &id, signature.as_slice())?)
}

fn found(alloc: Global, keys: &Keys, left: &Side, right: &Side) -> Result<Finding, Fail> {
    let dossier = Dossier {
        public: public_of(alloc, keys, left.signer)?,
        left: body_of(alloc, keys, left)?,
        right: body_of(alloc, keys, right)?,
    };
    Ok(find(alloc, &dossier)?)
}

fn is_found(finding: Finding, fork: Option<u64>, reuse: Option<u32>) -> bool {
    finding.fork == fork && finding.reuse == reuse
}

fn one(leaf: u32, number: u64, target: u8) -> Side {
    Side {
        signer: Signer::One,
        leaf,
        number,
        target,
    }
}

fn below(top: u32, first: bool, leaf: u32, target: u8) -> Side {
    Side {
        signer: Signer::Below { leaf: top, first },
        leaf,
        number: 2,
        target,
    }
}

/// Ends the test at a row, by its number from 0 on, where it is not so.
pub fn want(rt: &impl Abort, row: usize, is_so: bool) {
    assert!(rt; is_so, "row {row}");
}

#[test]
fn what_a_key_of_one_level_shows(rt: HostRuntime) -> Result<(), Fail> {
    let alloc = rt.alloc();
    let keys = keys_of(alloc)?;
    let rows = [
        // One number and two entries, with one leaf and with two.
        (one(7, 1, b'a'), one(7, 1, b'b'), Some(1), Some(7)),
        (one(7, 2, b'a'), one(8, 2, b'b'), Some(2), None),
        // Two numbers.
        (one(31, 2, b'a'), one(31, 3, b'a'), None, Some(31)),
        (one(0, 2, b'a'), one(1, 3, b'a'), None, None),
        // One entry twice, and one text that is signed with two leaves.
        (one(0, 2, b'a'), one(0, 2, b'a'), None, None),
        (one(0, 2, b'a'), one(1, 2, b'a'), Some(2), None),
    ];
    for (row, (left, right, fork, reuse)) in rows.into_iter().enumerate() {
        let finding = found(alloc, &keys, &left, &right)?;
        want(&rt, row, is_found(finding, fork, reuse));
    }
    Ok(())
}

#[test]
fn what_a_key_of_two_levels_shows(rt: HostRuntime) -> Result<(), Fail> {
    let alloc = rt.alloc();
    let keys = keys_of(alloc)?;
    let rows = [
        // One leaf of the top key signs one key below, whose leaves are two, and one.
        (below(3, true, 4, b'a'), below(3, true, 5, b'b'), None),
        (below(3, true, 4, b'a'), below(3, true, 4, b'b'), Some(4)),
        // Two leaves of the top key sign one key below.
        (below(3, true, 4, b'a'), below(2, true, 5, b'b'), None),
        (below(3, true, 4, b'a'), below(2, true, 4, b'b'), Some(4)),
        // Two keys below, with one number of a leaf each.
        (below(3, true, 4, b'a'), below(2, false, 4, b'b'), None),
        // One leaf of the top key signs two keys below.
        (below(3, true, 4, b'a'), below(3, false, 5, b'b'), Some(3)),
        (below(3, true, 4, b'a'), below(3, false, 4, b'b'), Some(3)),
        // A leaf of the top key has the number of one below.
        (below(4, true, 3, b'a'), below(3, false, 4, b'b'), None),
    ];
    for (row, (left, right, reuse)) in rows.into_iter().enumerate() {
        let finding = found(alloc, &keys, &left, &right)?;
        want(&rt, row, is_found(finding, Some(2), reuse));
    }
    Ok(())
}

// The dossier of two entries with one leaf and one number, with one part changed.
fn changed(alloc: Global, keys: &Keys, part: u8) -> Result<Dossier, Fail> {
    let mut dossier = Dossier {
        public: public_of(alloc, keys, Signer::One)?,
        left: body_of(alloc, keys, &one(7, 1, b'a'))?,
        right: body_of(alloc, keys, &one(7, 1, b'b'))?,
    };
    match part {
        // The key of another tree.
        1 => dossier.public = Octets::from_slice(alloc, &keys.first.public().write())?,
        // No entry on one side.
        2 => dossier.left = Octets::from_slice(alloc, b"left body")?,
        3 => dossier.right = Octets::new(alloc),
        // Entries without a signature.
        4 => dossier.left = draft_of(alloc, &one(7, 1, b'a'))?,
        5 => dossier.right = draft_of(alloc, &one(7, 1, b'b'))?,
        // The signature of another text.
        6 => {
            let text = draft_of(alloc, &one(7, 1, b'c'))?;
            let signature = sign(alloc, &keys.top, 7, b"another text")?;
            let id = key_id(dossier.public.as_slice());
            dossier.right = join_signature(alloc, text.as_slice(), &id, &signature)?;
        }
        _ => {}
    }
    Ok(dossier)
}

#[test]
fn a_side_that_is_not_signed_shows_nothing(rt: HostRuntime) -> Result<(), Fail> {
    let alloc = rt.alloc();
    let keys = keys_of(alloc)?;
    let whole = find(alloc, &changed(alloc, &keys, 0)?)?;
    want(&rt, 0, is_found(whole, Some(1), Some(7)));
    for part in 1..7u8 {
        let finding = find(alloc, &changed(alloc, &keys, part)?)?;
        want(&rt, part as usize, is_found(finding, None, None));
    }
    Ok(())
}
