//! The words and the numbers of a line, which a space divides.

use octets::Memory;
use std::alloc::Global;
use std::str;
use text_reader::{read_decimal, split_word};

// The first word and what stands behind its space.
fn first_word(line: &[u8]) -> (&[u8], &[u8]) {
    match split_word(line) {
        Some(parts) => parts,
        None => (line, b"".as_slice()),
    }
}

/// The words of a line. One that is not UTF-8 is left out.
pub fn words_of(alloc: Global, line: &[u8]) -> Result<Vec<String>, Memory> {
    let mut words = Vec::new(alloc);
    let mut rest = line;
    for _ in 0..line.len() {
        let (word, after) = first_word(rest);
        if let Ok(text) = str::from_utf8(word) {
            words.push(String::from_str(alloc, text)?)?;
        }
        if after.is_empty() {
            break;
        }
        rest = after;
    }
    Ok(words)
}

/// The numbers of a line, or None where a word is none.
pub fn numbers_of(alloc: Global, line: &[u8]) -> Result<Option<Vec<u64>>, Memory> {
    let mut numbers = Vec::new(alloc);
    let mut rest = line;
    for _ in 0..line.len() {
        let (word, after) = first_word(rest);
        match read_decimal(word) {
            Some(number) => numbers.push(number)?,
            None => return Ok(None),
        }
        if after.is_empty() {
            break;
        }
        rest = after;
    }
    Ok(Some(numbers))
}
