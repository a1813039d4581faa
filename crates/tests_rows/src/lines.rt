//! What was seen, as a line.

use crate::outside::Seen;
use hex::encode;
use itoa::Buffer;
use octets::{Memory, Octets};
use sha2::{Digest, Sha256};
use std::alloc::Global;

// A text of more bytes, or with others than ASCII's, is told by their number and their SHA-256.
const LONG: usize = 1_000;

/// A number in decimal.
pub fn append_number(line: &mut Octets, number: u64) -> Result<(), Memory> {
    let mut digits = Buffer::new();
    line.append(digits.format(number).as_bytes())
}

/// The length of a text, and its SHA-256.
pub fn append_digest(alloc: Global, line: &mut Octets, text: &[u8]) -> Result<(), Memory> {
    append_number(line, text.len() as u64)?;
    line.append(b" bytes of SHA-256 ")?;
    let digits = encode(alloc, &Sha256::digest(text))?;
    line.append(digits.as_str().as_bytes())
}

// The text between quotes, each line feed in it as a backslash and an n.
fn append_quoted(line: &mut Octets, text: &[u8]) -> Result<(), Memory> {
    line.push(b'"')?;
    for byte in text {
        if *byte == b'\n' {
            line.append(b"\\n")?;
        } else {
            line.push(*byte)?;
        }
    }
    line.push(b'"')
}

// Whether a text has line feeds and bytes that are seen alone.
fn is_plain(text: &[u8]) -> bool {
    text.iter()
        .all(|byte| *byte == b'\n' || (*byte >= 32 && *byte <= 126))
}

fn append_text(alloc: Global, line: &mut Octets, text: &[u8]) -> Result<(), Memory> {
    line.push(b' ')?;
    if text.len() > LONG || !is_plain(text) {
        append_digest(alloc, line, text)
    } else {
        append_quoted(line, text)
    }
}

/// The row's name, the status, what was printed and what was said, with a line feed.
pub fn line_of(alloc: Global, name: &[u8], seen: &Seen) -> Result<Octets, Memory> {
    let mut line = Octets::from_slice(alloc, name)?;
    line.push(b' ')?;
    append_number(&mut line, seen.status as u64)?;
    append_text(alloc, &mut line, seen.printed.as_slice())?;
    append_text(alloc, &mut line, seen.said.as_slice())?;
    line.push(b'\n')?;
    Ok(line)
}

/// The row's name and a text, with a line feed.
pub fn told(alloc: Global, name: &[u8], text: &[u8]) -> Result<Octets, Memory> {
    let mut line = Octets::from_slice(alloc, name)?;
    append_text(alloc, &mut line, text)?;
    line.push(b'\n')?;
    Ok(line)
}
