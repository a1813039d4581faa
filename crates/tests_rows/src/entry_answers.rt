//! What is read of a log entry's body, as a text.

use crate::lines::{append_digest, append_number};
use octets::{Memory, Octets};
use rsl_chain::{Entry, EntryBody, EntryFault, read_body};
use std::alloc::Global;

// A word, and the length and the SHA-256 of bytes.
fn append_bytes(alloc: Global, text: &mut Octets, word: &[u8], bytes: &[u8]) -> Result<(), Memory> {
    text.append(word)?;
    append_digest(alloc, text, bytes)
}

fn append_body(alloc: Global, text: &mut Octets, body: &EntryBody) -> Result<(), Memory> {
    match body {
        EntryBody::Reference { name, target } => {
            text.append(b" ref ")?;
            text.append(name.text())?;
            text.append(b" ")?;
            text.append(&target.to_hex())
        }
        EntryBody::Annotation { ids, skip, message } => {
            let mut listed = Octets::new(alloc);
            for id in ids.as_slice() {
                listed.append(id.as_bytes())?;
            }
            let word = if *skip {
                b" skip ".as_slice()
            } else {
                b" note ".as_slice()
            };
            append_bytes(alloc, text, word, listed.as_slice())?;
            append_bytes(alloc, text, b" message ", message.as_slice())
        }
    }
}

fn append_entry(alloc: Global, text: &mut Octets, entry: &Entry) -> Result<(), Memory> {
    text.append(b"entry ")?;
    append_number(text, entry.number)?;
    if let Some(parent) = &entry.parent {
        text.append(b" parent ")?;
        text.append(&parent.to_hex())?;
    }
    append_bytes(alloc, text, b" signed ", entry.signed.as_slice())?;
    if let Some(signer) = &entry.signer {
        text.append(b" by ")?;
        text.append(&signer.to_hex())?;
        append_bytes(alloc, text, b" as ", entry.signature.as_slice())?;
    }
    append_body(alloc, text, &entry.body)
}

/// The entry of a commit's body, or the number of its wrong line.
pub fn entry_text(alloc: Global, body: &[u8]) -> Result<Octets, Memory> {
    let mut text = Octets::new(alloc);
    match read_body(alloc, body) {
        Ok(entry) => append_entry(alloc, &mut text, &entry)?,
        Err(EntryFault::BadEntry { line }) => {
            text.append(b"bad-entry ")?;
            append_number(&mut text, line)?;
        }
        Err(EntryFault::Memory) => return Err(Memory),
    }
    Ok(text)
}
