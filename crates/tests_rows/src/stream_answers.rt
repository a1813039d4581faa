//! What a text is refused for as a stream, as a text.

use crate::lines::append_number;
use clone_stream::{StreamFault, read_stream};
use edge_io::MemSource;
use keeper_api::MemKeeper;
use octets::{Memory, Octets};
use std::alloc::Global;

fn append_at(text: &mut Octets, word: &[u8], number: u64) -> Result<(), Memory> {
    text.append(word)?;
    append_number(text, number)
}

fn append_fault(text: &mut Octets, fault: StreamFault) -> Result<(), Memory> {
    match fault {
        StreamFault::BadLine { at } => append_at(text, b"bad-line ", at),
        StreamFault::IdDiffers { id, found } => {
            text.append(b"id-differs ")?;
            text.append(&id.to_hex())?;
            text.append(b" ")?;
            text.append(&found.to_hex())
        }
        StreamFault::Order { at } => append_at(text, b"order ", at),
        StreamFault::TooLarge { limit } => append_at(text, b"too-large ", limit),
        StreamFault::Truncated { at } => append_at(text, b"truncated ", at),
        StreamFault::SourceFailed => text.append(b"source-failed"),
        StreamFault::KeeperFailed => text.append(b"keeper-failed"),
        StreamFault::NotEmpty => text.append(b"not-empty"),
        StreamFault::Memory => Err(Memory),
    }
}

/// The refusal of these bytes by an empty store, with its place, or that they are taken.
pub fn stream_text(alloc: Global, bytes: &[u8]) -> Result<Octets, Memory> {
    let mut source = MemSource::new(Octets::from_slice(alloc, bytes)?);
    let mut keeper = MemKeeper::new(alloc);
    let mut text = Octets::new(alloc);
    match read_stream(alloc, &mut source, &mut keeper) {
        Ok(()) => text.append(b"taken")?,
        Err(fault) => append_fault(&mut text, fault)?,
    }
    Ok(text)
}
