//! Keys by their digits.

use crate::finding_rows::want;
use evidence::PublicBytes;
use octets::Octets;
use std::alloc::Global;
use std::test::Fail;

// Whether the digits of so many bytes `k`, with an end behind them, are read as these bytes.
fn is_read(alloc: Global, count: usize, end: &[u8]) -> Result<bool, Fail> {
    let mut digits = Octets::new(alloc);
    for _ in 0..count {
        digits.append(b"6b")?;
    }
    digits.append(end)?;
    let bytes = vec![in alloc; b'k'; count]?;
    match PublicBytes::from_hex(digits.as_slice()) {
        Some(public) => Ok(public.as_slice() == bytes.as_slice()),
        None => Ok(false),
    }
}

#[test]
fn a_key_of_56_bytes_or_of_60_is_read_by_its_digits(rt: HostRuntime) -> Result<(), Fail> {
    let alloc = rt.alloc();
    for count in 0..130usize {
        let is_public = count == 56 || count == 60;
        want(&rt, count, is_read(alloc, count, b"")? == is_public);
    }
    Ok(())
}

#[test]
fn other_digits_are_no_key(rt: HostRuntime) -> Result<(), Fail> {
    let alloc = rt.alloc();
    want(&rt, 0, !is_read(alloc, 56, b"6")?);
    want(&rt, 1, !is_read(alloc, 55, b"6B")?);
    want(&rt, 2, !is_read(alloc, 55, b"6g")?);
    Ok(())
}
