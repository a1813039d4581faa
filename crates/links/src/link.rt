//! Links.

ghost use Rattle.std.specs.Prelude.{◌≡◌, [], IfOk};

use edge_io::{MemSink, MemSource};
use octets::{Memory, Octets};
use std::alloc::Global;

/// A link to another program: where its bytes come from, and where bytes to it go.
#[derive(Drop)]
pub struct Link<S, K> {
    pub source: S,
    pub sink: K,
}

/// A link in memory. It tells what is left to read of it, and what was written to it.
pub type MemLink = Link<MemSource, MemSink>;

impl Link<MemSource, MemSink> {
    /// A link that gives these bytes to reads and has room for so many to be written, of which no call fails.
    pub fn new(content: Octets, room: usize) -> Result<MemLink, Memory>
        ensures { IfOk result (λ link. (link.source ≡ record {
          left = content;
          calls = record { listed = []; made = 0; faults = 0 };
        }) × (link.sink ≡ record {
          contents = [];
          room = room;
          calls = record { listed = []; made = 0; faults = 0 };
        })) }
    {
        let alloc = content.allocator();
        Ok(Link {
            source: MemSource::new(content),
            sink: MemSink::new(alloc, room)?,
        })
    }

    /// The same, of which the reads and the writes with these numbers fail, each counted from 1.
    pub fn failing(
        content: Octets,
        room: usize,
        reads: Vec<u64>,
        writes: Vec<u64>,
    ) -> Result<MemLink, Memory>
        ensures { IfOk result (λ link. (link.source ≡ record {
          left = content;
          calls = record { listed = reads.items; made = 0; faults = 0 };
        }) × (link.sink ≡ record {
          contents = [];
          room = room;
          calls = record { listed = writes.items; made = 0; faults = 0 };
        })) }
    {
        let alloc = content.allocator();
        Ok(Link {
            source: MemSource::failing(content, reads),
            sink: MemSink::failing(alloc, room, writes)?,
        })
    }
}
