//! A sink that keeps what it is given, until that is too long.

ghost use Rattle.std.specs.Prelude.{◌≡◌, [], Some, length, nat_lt};
ghost use Rattle.desk_shops.specs.Texts.{largest_text};

use edge_io::{Failed, Sink};
use octets::Octets;
use std::alloc::Global;

/// The most bytes that a text may have: 256 MiB.
pub const LARGEST_TEXT: u64 = 268435456;

/// What was written. The piece that passes the limit is kept still, and the next one fails; so does one for which there
/// is no memory.
#[derive(Drop)]
pub struct ShortText {
    text: Octets,
    faults: u64,
}

impl ShortText {
    /// Nothing yet. It takes no memory.
    pub fn new(alloc: Global) -> ShortText
        ensures { result.text ≡ [] }
    {
        ShortText {
            text: Octets::new(alloc),
            faults: 0,
        }
    }

    /// Whether the limit is passed.
    pub fn is_past(&self) -> bool
        ensures { result ≡ nat_lt largest_text (length self.now.text) }
    {
        self.text.len() as u64 > LARGEST_TEXT
    }

    /// What was written.
    pub fn into_text(self) -> Octets
        ensures { result ≡ self.text }
    {
        let ShortText { text, faults: _ } = self;
        text
    }
}

impl Sink for ShortText {
    ghost contents = { λ s. Some s.text };

    ghost faults = { λ s. s.faults };

    fn write(&mut self, bytes: &[u8]) -> Result<usize, Failed> {
        if self.is_past() || self.text.append(bytes).is_err() {
            self.faults = self.faults.saturating_add(1);
            return Err(Failed);
        }
        Ok(bytes.len())
    }
}
