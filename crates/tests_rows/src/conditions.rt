//! What the objects are that a command of a row runs over.

use crate::outside::InMemory;
use edge_io::{MemClock, MemDisk, MemEntropy, MemSink, MemSource};
use gittuf_cli::Outside;
use keeper_api::MemKeeper;
use links::MemPeer;
use octets::{Memory, Octets};
use std::alloc::Global;

// What a command may print in bytes, what it may say of a refusal, what it may write into the key file, in so many
// calls, and what it may send.
const PRINTED: usize = 65_536;

const SAID: usize = 200;

const WRITTEN: usize = 96;

const DISK_CALLS: usize = 64;

const SENT: usize = 65_536;

/// An object that a command runs over.
#[derive(Clone, Copy, Drop)]
pub enum Part {
    Source,
    Sink,
    /// The sink for what is said of a refusal.
    Refusals,
    Store,
    /// The commits of the store that are kept though they fail.
    Kept,
    Disk,
    Random,
    Clock,
    Peer,
}

/// The room of the objects, what they give, and the numbers of their calls that fail.
#[derive(Drop)]
pub struct Conditions {
    printed: usize,
    said: usize,
    written: usize,
    sent: usize,
    random: Octets,
    moments: Vec<u64>,
    answer: Octets,
    of_source: Vec<u64>,
    of_sink: Vec<u64>,
    of_refusals: Vec<u64>,
    of_store: Vec<u64>,
    kept: Vec<u64>,
    of_disk: Vec<u64>,
    of_random: Vec<u64>,
    of_clock: Vec<u64>,
    of_peer: Vec<u64>,
}

impl Conditions {
    /// Ample room, no random bytes, two moments, a peer that answers nothing, and no call that fails.
    pub fn usual(alloc: Global) -> Result<Conditions, Memory> {
        Ok(Conditions {
            printed: PRINTED,
            said: SAID,
            written: WRITTEN,
            sent: SENT,
            random: Octets::new(alloc),
            moments: vec![in alloc; 1, 2]?,
            answer: Octets::new(alloc),
            of_source: Vec::new(alloc),
            of_sink: Vec::new(alloc),
            of_refusals: Vec::new(alloc),
            of_store: Vec::new(alloc),
            kept: Vec::new(alloc),
            of_disk: Vec::new(alloc),
            of_random: Vec::new(alloc),
            of_clock: Vec::new(alloc),
            of_peer: Vec::new(alloc),
        })
    }

    /// Gives room for so many bytes to one of the sinks, to the disk or to the peer.
    pub fn set_room(&mut self, part: Part, bytes: usize) {
        match part {
            Part::Sink => self.printed = bytes,
            Part::Refusals => self.said = bytes,
            Part::Disk => self.written = bytes,
            Part::Peer => self.sent = bytes,
            _ => {}
        }
    }

    /// Has the calls with these numbers fail.
    pub fn set_calls(&mut self, part: Part, calls: Vec<u64>) {
        match part {
            Part::Source => self.of_source = calls,
            Part::Sink => self.of_sink = calls,
            Part::Refusals => self.of_refusals = calls,
            Part::Store => self.of_store = calls,
            Part::Kept => self.kept = calls,
            Part::Disk => self.of_disk = calls,
            Part::Random => self.of_random = calls,
            Part::Clock => self.of_clock = calls,
            Part::Peer => self.of_peer = calls,
        }
    }

    pub fn set_random(&mut self, bytes: Octets) {
        self.random = bytes;
    }

    pub fn set_moments(&mut self, moments: Vec<u64>) {
        self.moments = moments;
    }

    /// Has the peer answer these bytes.
    pub fn set_answer(&mut self, bytes: Octets) {
        self.answer = bytes;
    }

    /// This store, of which calls fail as they are told.
    pub fn store(self, keeper: MemKeeper) -> MemKeeper {
        MemKeeper::failing(keeper, self.of_store, self.kept)
    }

    /// The objects over these bytes of standard input, this store, and a key file of these bytes.
    pub fn objects(
        self,
        alloc: Global,
        source: Octets,
        keeper: MemKeeper,
        key: &[u8],
    ) -> Result<InMemory, Memory> {
        let key = Octets::from_slice(alloc, key)?;
        Ok(Outside {
            source: MemSource::failing(source, self.of_source),
            sink: MemSink::failing(alloc, self.printed, self.of_sink)?,
            faults_out: MemSink::failing(alloc, self.said, self.of_refusals)?,
            keeper: MemKeeper::failing(keeper, self.of_store, self.kept),
            disk: MemDisk::failing(key, self.written, DISK_CALLS, self.of_disk)?,
            entropy: MemEntropy::failing(self.random, self.of_random),
            clock: MemClock::failing(self.moments, self.of_clock),
            peer: MemPeer::failing(self.answer, self.sent, self.of_peer)?,
        })
    }
}
