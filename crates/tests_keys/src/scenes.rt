//! A key file.

use edge_io::MemDisk;
use octets::Octets;
use std::alloc::Global;
use std::test::Fail;

pub(crate) const I: [u8; 16] = *b"0123456789abcdef";

pub(crate) const SEED: [u8; 32] = *b"thirty-two bytes make this seed.";

pub(crate) const MESSAGE: &[u8; 22] = b"a message of one line\n";

/// The new key file of these, of 5 levels and width 1.
pub(crate) const FILE: &[u8; 96] =
    b"LMSKEY01\0\0\0\x05\0\0\0\x010123456789abcdefthirty-two bytes make this seed.\
\0\0\0\0\0\0\0\0\0\0\0\0\0\0\0\0\0\0\0\0\0\0\0\0\0\0\0\0\0\0\0\0";

/// A disk with the key file.
pub(crate) fn new_disk(alloc: Global) -> Result<MemDisk, Fail> {
    let file = Octets::from_slice(alloc, FILE.as_slice())?;
    Ok(MemDisk::new(file, 96, 64)?)
}

/// Turns bits of a byte where there is one.
pub(crate) fn turn(signature: &mut [u8], at: usize, bits: u8) {
    if let Some(byte) = signature.get_mut(at) {
        *byte ^= bits;
    }
}
