//! A store without an end, whose export passes the limit of a stream, 2^30 bytes.

ghost use Rattle.std.specs.Prelude.{◌≡◌, ◌≤◌, ◌<◌, length, IfOk, None, true, false};
ghost use Rattle.std.proofs.lemmas.Bool.{false≢true};
ghost use Rattle.octets.specs.Causes.{HasCause, each, one_more};
ghost use Rattle.keeper_api.specs.Faults.{keeper_failed};
ghost use Rattle.keeper_api.specs.Keepers.{same_tells};

use crate::lines::append_number;
use crate::outside::Seen;
use edge_io::{Failed, MemClock, MemDisk, MemEntropy, MemSink, MemSource, Sink};
use git_object::{Kind, Object, ObjectId, RefName};
use gittuf_cli::{Outside, run};
use keeper_api::{Change, Keeper, KeeperFault, RefValue};
use links::MemPeer;
use octets::{Copied, Memory, Octets};
use std::alloc::Global;

// A sink that keeps nothing and counts the bytes.
#[derive(Drop)]
struct Counter {
    bytes: u64,
}

impl Sink for Counter {
    ghost contents = { λ _. None };

    ghost faults = { λ _. 0 };

    fn write(&mut self, bytes: &[u8]) -> Result<usize, Failed>
        ensures bound { IfOk result (λ count. count ≤ length bytes.now) }
        ensures some { IfOk result (λ count. 0 < length bytes.now → 0 < count) }
        ensures cause { HasCause each 0 0 result }
    {
        self.bytes = self.bytes.saturating_add(bytes.len() as u64);
        Ok(bytes.len())
    }
}

// A store that tells nothing and answers one object again and again, so that its export has no end of its own.
#[derive(Drop)]
struct Endless {
    object: Object,
    reads: u64,
}

impl Keeper for Endless {
    ghost content = { λ _. None };

    ghost tells_left = { λ _. false };

    ghost left = { λ _ _. ⊥ };

    ghost is_clean = { λ _. true };

    ghost faults = { λ _. 0 };

    ghost reads = { λ k. k.reads };

    ghost comes = { λ _ _. Unit {0} };

    fn read_object(&mut self, _alloc: Global, _id: &ObjectId) -> Result<Option<Object>, KeeperFault>
        ensures cause { HasCause keeper_failed 0 0 result }
        ensures reads { self.new.reads ≡ one_more self.old.reads }
    {
        self.reads = self.reads.saturating_add(1);
        match self.object.copied() {
            Ok(object) => Ok(Some(object)),
            Err(_) => Err(KeeperFault::Memory),
        }
    }

    fn read_ref(&mut self, _alloc: Global, _name: &RefName) -> Result<Option<ObjectId>, KeeperFault>
        ensures cause { HasCause keeper_failed 0 0 result }
        ensures reads { self.new.reads ≡ self.old.reads }
    {
        Ok(None)
    }

    fn next_object_after(
        &mut self,
        _alloc: Global,
        _after: Option<&ObjectId>,
    ) -> Result<Option<ObjectId>, KeeperFault>
        ensures cause { HasCause keeper_failed 0 0 result }
        ensures reads { self.new.reads ≡ self.old.reads }
    {
        Ok(Some(self.object.id()))
    }

    fn next_ref_after(
        &mut self,
        _alloc: Global,
        _after: Option<&RefName>,
    ) -> Result<Option<RefValue>, KeeperFault>
        ensures cause { HasCause keeper_failed 0 0 result }
        ensures reads { self.new.reads ≡ self.old.reads }
    {
        Ok(None)
    }

    fn commit(&mut self, _alloc: Global, _change: &Change) -> Result<(), KeeperFault>
        ensures cause { HasCause keeper_failed 0 0 result }
        ensures reads { self.new.reads ≡ self.old.reads }
    {
        Err(KeeperFault::Memory)
    }

    fn faults(&self) -> u64
        ensures { result ≡ 0 }
    {
        0
    }

    ghost held_is_left = { λ _ r told. absurd (false≢true told) };

    ghost comes_self = { λ _. tt };

    ghost comes_tells = { λ _ _ came. same_tells None false true 0 0 };
}

// So many zero bytes. Nothing is said of them, so that no proof looks for the hash of what they are.
fn zero_bytes(alloc: Global, size: usize) -> Result<Octets, Memory> {
    Ok(Octets::from_vec(vec![in alloc; 0u8; size]?))
}

// A store of blobs of so many zero bytes.
fn store_of(alloc: Global, size: usize) -> Result<Endless, Memory> {
    Ok(Endless {
        object: Object::new(alloc, Kind::Blob, zero_bytes(alloc, size)?)?,
        reads: 0,
    })
}

/// Exports a store of blobs of so many zero bytes, one after the other without an end. In the place of what was printed
/// it is told how many bytes that were, and how many objects were read.
pub fn export(alloc: Global, size: usize) -> Result<Seen, Memory> {
    let mut outside = Outside {
        source: MemSource::new(Octets::new(alloc)),
        sink: Counter { bytes: 0 },
        faults_out: MemSink::new(alloc, 100)?,
        keeper: store_of(alloc, size)?,
        disk: MemDisk::new(Octets::new(alloc), 0, 0)?,
        entropy: MemEntropy::new(Octets::new(alloc)),
        clock: MemClock::new(Vec::new(alloc)),
        peer: MemPeer::new(Octets::new(alloc), 0)?,
    };
    let words = vec![in alloc; String::from_str(alloc, "export")?]?;
    let status = run(alloc, words.as_slice(), &mut outside);
    let mut printed = Octets::new(alloc);
    append_number(&mut printed, outside.sink.bytes)?;
    printed.append(b" bytes of ")?;
    append_number(&mut printed, outside.keeper.reads)?;
    printed.append(b" objects read")?;
    Ok(Seen {
        status,
        printed,
        said: Octets::from_slice(alloc, outside.faults_out.contents())?,
    })
}
