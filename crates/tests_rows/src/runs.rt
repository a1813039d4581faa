//! One run of a command over objects in memory.

use crate::conditions::Conditions;
use crate::lines::append_number;
use crate::outside::{InMemory, Seen};
use gittuf_cli::run;
use keeper_api::MemKeeper;
use links::MemPeer;
use octets::{Memory, Octets};
use std::alloc::Global;

// What is seen once a run ended with this status.
fn ending_of(alloc: Global, status: u8, outside: &InMemory) -> Result<Seen, Memory> {
    Ok(Seen {
        status,
        printed: Octets::from_slice(alloc, outside.sink.contents())?,
        said: Octets::from_slice(alloc, outside.faults_out.contents())?,
    })
}

fn status_of(alloc: Global, words: &[String], outside: &mut InMemory) -> u8 {
    run(alloc, words, outside)
}

/// What is seen of a run, and what it leaves: the store, the bytes of the key file, and the port of the peer that it
/// asked with what was sent there.
#[derive(Drop)]
pub struct Left {
    pub seen: Seen,
    pub keeper: MemKeeper,
    pub key: Octets,
    pub sent: Octets,
}

// The port of the last connection, on a line of its own, and what was written: nothing where there was no connection.
fn sent_to(alloc: Global, peer: &MemPeer) -> Result<Octets, Memory> {
    let mut text = Octets::new(alloc);
    if let Some(port) = peer.port() {
        text.append(b"port ")?;
        append_number(&mut text, port as u64)?;
        text.push(b'\n')?;
    }
    text.append(peer.given())?;
    Ok(text)
}

/// Runs the command of these words over standard input, a store and a key file of these bytes.
pub fn run_over(
    alloc: Global,
    words: &[String],
    conditions: Conditions,
    source: Octets,
    keeper: MemKeeper,
    key: &[u8],
) -> Result<Left, Memory> {
    let mut outside = conditions.objects(alloc, source, keeper, key)?;
    let status = status_of(alloc, words, &mut outside);
    let seen = ending_of(alloc, status, &outside)?;
    let key = Octets::from_slice(alloc, outside.disk.contents())?;
    let sent = sent_to(alloc, &outside.peer)?;
    Ok(Left {
        seen,
        keeper: outside.keeper,
        key,
        sent,
    })
}
