//! The status and the line of a refusal that no row comes to, as a text.

use crate::lines::append_number;
use octets::{Memory, Octets};
use std::alloc::Global;
use worlds::Refusal;

/// A refusal of which a row asks.
#[derive(Clone, Copy, Drop)]
pub enum Asked {
    /// Memory was wanting, which no row can bring about.
    Memory,
    /// A stream is refused by this number.
    Stream { number: u8 },
}

fn refusal_of(asked: Asked) -> Refusal {
    match asked {
        Asked::Memory => Refusal::Memory,
        Asked::Stream { number } => Refusal::Stream { number },
    }
}

/// The status, a space and the line with its line feed.
pub fn ending_text(alloc: Global, asked: Asked) -> Result<Octets, Memory> {
    let refusal = refusal_of(asked);
    let mut text = Octets::new(alloc);
    append_number(&mut text, refusal.status() as u64)?;
    text.append(b" ")?;
    text.append(refusal.line().as_slice())?;
    Ok(text)
}
