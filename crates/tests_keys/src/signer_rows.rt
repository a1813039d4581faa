//! Two signers over one key file. Once one of them signed with a leaf that the other has not marked, the other one is
//! not to sign before it is opened again.

use crate::scenes::{MESSAGE, new_disk};
use edge_io::MemDisk;
use leaf_journal::Signer;
use lms_keys::verify_any;
use std::alloc::Global;
use std::test::Fail;

// Opens a signer and signs once. The signature has to be good for this key.
fn sign_for(alloc: Global, disk: &mut MemDisk, key: &[u8]) -> Result<u32, Fail> {
    let Ok(mut signer) = Signer::load(alloc, disk) else {
        return Err("a signer".into());
    };
    let mut out = vec![in alloc; 0u8; signer.signature_len()]?;
    let Ok(leaf) = signer.sign(disk, MESSAGE, out.as_mut_slice()) else {
        return Err("a signature".into());
    };
    if !verify_any(key, MESSAGE, out.as_slice()) {
        return Err("a good signature".into());
    }
    Ok(leaf)
}

// The leaves that sign while a signer is open that signs with none of them.
fn leaves_beside(alloc: Global, disk: &mut MemDisk) -> Result<(u32, u32), Fail> {
    let Ok(idle) = Signer::load(alloc, disk) else {
        return Err("an idle signer".into());
    };
    let one = sign_for(alloc, disk, idle.public_bytes())?;
    let next = sign_for(alloc, disk, idle.public_bytes())?;
    Ok((one, next))
}

// Whether these bytes of a key file are marked, and the next is not.
fn is_marked_so_far(disk: &MemDisk) -> bool {
    let byte_at = |place: usize| disk.contents().get(place).copied();
    byte_at(64) == Some(1) && byte_at(67) == Some(1) && byte_at(68) == Some(0)
}

#[test]
fn two_signers_take_turns(rt: HostRuntime) -> Result<(), Fail> {
    let alloc = rt.alloc();
    let mut disk = new_disk(alloc)?;
    assert!(rt; leaves_beside(alloc, &mut disk)? == (0, 1));
    assert!(rt; leaves_beside(alloc, &mut disk)? == (2, 3));
    assert!(rt; is_marked_so_far(&disk));
    Ok(())
}
