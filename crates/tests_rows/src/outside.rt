//! The objects in memory, and what is seen of a run over them.

use edge_io::{MemClock, MemDisk, MemEntropy, MemSink, MemSource};
use gittuf_cli::Outside;
use keeper_api::MemKeeper;
use links::MemPeer;
use octets::Octets;

pub type InMemory = Outside<
    MemSource,
    MemSink,
    MemSink,
    MemKeeper,
    MemDisk,
    MemEntropy,
    MemClock,
    MemPeer,
>;

/// What a run is seen to have done: the status, what was printed, and what was said of a refusal.
#[derive(PartialEq, Drop)]
pub struct Seen {
    pub status: u8,
    pub printed: Octets,
    pub said: Octets,
}
