//! Links to another program, doors at which links come in, and peers, which are connected to: in memory, and over TCP
//! on this machine.
//!
//! What it promises, and where to begin: `README.md` in this crate's folder.

#![tactic(auto)]

mod doors;
mod link;
mod memory_door;
mod memory_peer;
mod peers;
mod tcp_door;
mod tcp_peer;

pub use doors::Door;
pub use link::{Link, MemLink};
pub use memory_door::MemDoor;
pub use memory_peer::MemPeer;
pub use peers::Peer;
pub use tcp_door::{TcpDoor, TcpLink, listen};
pub use tcp_peer::TcpPeer;
