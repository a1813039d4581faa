//! The outside as traits: where bytes come from and where they go, a disk that a crash may catch between two calls,
//! where random bytes come from, and the clock.
//!
//! What it promises, and where to begin: `README.md` in this crate's folder.

#![tactic(auto)]

mod clocks;
mod disk_calls;
mod disks;
mod entropies;
mod file_disk;
mod memory_bytes;
mod memory_clock;
mod memory_disk;
mod memory_entropy;
mod memory_sink;
mod memory_source;
mod sinks;
mod sources;
mod std_edges;

pub use clocks::{Clock, OsClock};
pub use disk_calls::DiskCall;
pub use disks::Disk;
pub use entropies::{Entropy, OsEntropy};
pub use file_disk::FileDisk;
pub use memory_clock::MemClock;
pub use memory_disk::MemDisk;
pub use memory_entropy::MemEntropy;
pub use memory_sink::MemSink;
pub use memory_source::MemSource;
pub use sinks::{Sink, write_all};
pub use sources::{Failed, ReadFault, Source, read_all};
pub use std_edges::{StdSink, StdSource};
