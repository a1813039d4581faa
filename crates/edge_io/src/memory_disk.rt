//! A disk in memory.

ghost use Rattle.std.specs.Prelude.{ℕ, List, refl, ◌≡◌, ◌≤◌, ◌<◌, ◌+◌, ◌∷◌, ◌++◌, ◌↔◌, ◌⊎◌, [], length, take, drop};
ghost use Rattle.std.specs.Prelude.{false, true, IfOk, IsErr, IsTrue, OnOk, OnErr, Some};
ghost use Rattle.std.specs.Vec.{vec_len, vec_capacity};
ghost use Rattle.octets.specs.Causes.{HasCause, each, one_more};
ghost use Rattle.octets.specs.Calls.{after_call, fails_next};
ghost use Rattle.octets.specs.Content.{Told};
ghost use Rattle.edge_io.specs.Disk.{Follows, Only, Torn, Written};
ghost use Rattle.edge_io.specs.Recorded.{FailsNext, IsSynced, IsUnmoved, IsWritten, Keeps, LeftSince, MayLeave, Passes};
ghost use Rattle.edge_io.specs.Recorded.{seen_after, splice};
ghost use Rattle.edge_io.specs.Recalled.{is_left, left_now, reading_stays, seen_is};

use crate::memory_bytes::{append, fails, note, put_over};
use crate::{Disk, DiskCall, Failed};
use octets::{FailingCalls, Memory, Octets};
use std::marker::Model;

/// A disk in memory with room for the bytes of all its writes and for a number of calls. It tells what it holds and
/// all that a crash may leave. It fails at the calls that are listed, at a write that would pass its room, past its
/// number of calls, and nowhere else; a call that fails changes nothing.
#[derive(Drop)]
pub struct MemDisk {
    start: Octets,
    bytes: Vec<u8>,
    // The bytes of all writes, one after the other.
    written: Vec<u8>,
    kept: Vec<DiskCall>,
    room: usize,
    recorded: usize,
    calls: FailingCalls,
}

impl Model for MemDisk {
    ghost use Rattle.edge_io.specs.Recorded.{Recording};

    ghost Value = { Recording };

    ghost use Rattle.std.specs.Prelude.{◌≤◌, ◌+◌, [], length};
    ghost use Rattle.std.specs.Vec.{vec_capacity};
    ghost use Rattle.edge_io.specs.Recorded.{AreKept, steps_onto};

    ghost view = { λ s. record {
      start = s.start;
      steps = steps_onto [] s.kept.items s.written.items;
      written = length s.written.items;
      room = s.room;
      recorded = s.recorded;
      calls = s.calls;
    } };

    ghost invariant = { λ s. AreKept s.start s.bytes.items s.written.items s.kept.items s.room × (length s.kept.items ≤ s.calls.made)
        × (length s.start + s.room ≤ vec_capacity s.bytes) × (s.room ≤ vec_capacity s.written)
        × (s.recorded ≤ vec_capacity s.kept) };
}

impl MemDisk {
    // A disk with this content, room, number of calls, and calls that fail.
    fn with_calls(
        content: Octets,
        room: usize,
        recorded: usize,
        calls: FailingCalls,
    ) -> Result<MemDisk, Memory>
        ensures { IfOk result (λ disk. disk ≡ record {
          start = content;
          steps = [];
          written = 0;
          room = room;
          recorded = recorded;
          calls = calls;
        }) }
    {
        let alloc = content.allocator();
        let Some(longest) = content.len().checked_add(room) else {
            return Err(Memory);
        };
        let mut bytes = Vec::with_capacity(alloc, longest)?;
        bytes.extend_from_slice(content.as_slice())?;
        Ok(MemDisk {
            start: content,
            bytes,
            written: Vec::with_capacity(alloc, room)?,
            kept: Vec::with_capacity(alloc, recorded)?,
            room,
            recorded,
            calls,
        })
    }

    /// A disk that holds these bytes, of which no call is listed.
    pub fn new(content: Octets, room: usize, recorded: usize) -> Result<MemDisk, Memory>
        ensures { IfOk result (λ disk. disk ≡ record {
          start = content;
          steps = [];
          written = 0;
          room = room;
          recorded = recorded;
          calls = record { listed = []; made = 0; faults = 0 };
        }) }
    {
        let calls = FailingCalls::none(content.allocator());
        MemDisk::with_calls(content, room, recorded, calls)
    }

    /// A disk that holds these bytes, of which the calls with these numbers fail, counted from 1.
    pub fn failing(
        content: Octets,
        room: usize,
        recorded: usize,
        calls: Vec<u64>,
    ) -> Result<MemDisk, Memory>
        ensures { IfOk result (λ disk. disk ≡ record {
          start = content;
          steps = [];
          written = 0;
          room = room;
          recorded = recorded;
          calls = record { listed = calls.items; made = 0; faults = 0 };
        }) }
    {
        MemDisk::with_calls(content, room, recorded, FailingCalls::listed(calls))
    }

    /// What a read gives.
    pub fn contents(&self) -> &[u8]
        ensures { result.now ≡ seen_after self.now.start self.now.steps }
    {
        self.bytes.as_slice()
    }

    // The length of the file.
    fn measure(&mut self) -> Result<u64, Failed>
        ensures answer { IfOk result (λ len. len ≡ length (seen_after self.old.start self.old.steps)) }
        ensures same { self.new ≡ record self.old { calls = self.new.calls } }
        ensures fails { IsErr result ↔ FailsNext self.old }
        ensures cause { HasCause each self.old.calls.faults self.new.calls.faults result }
    {
        if fails(&mut self.calls, self.recorded) {
            return Err(Failed);
        }
        Ok(self.bytes.len() as u64)
    }

    // The bytes from a place on.
    fn copy_out(&mut self, at: u64, out: &mut [u8]) -> Result<(), Failed>
        requires within { at + length out.old ≤ length (seen_after self.old.start self.old.steps) }
        ensures bytes { OnOk result (out.new ≡ take (length out.old)
            (drop at (seen_after self.old.start self.old.steps))) }
        ensures untouched { OnErr result (out.new ≡ out.old) }
        ensures same { self.new ≡ record self.old { calls = self.new.calls } }
        ensures fails { IsErr result ↔ FailsNext self.old }
        ensures cause { HasCause each self.old.calls.faults self.new.calls.faults result }
    {
        if fails(&mut self.calls, self.recorded) {
            return Err(Failed);
        }
        let (_, rest) = self.bytes.as_slice().split_at(at as usize);
        let (front, _) = rest.split_at(out.len());
        out.copy_from_slice(front);
        Ok(())
    }

    // Writes over what is there, and past the end.
    fn put(&mut self, at: u64, bytes: &[u8]) -> Result<(), Failed>
        requires within { at ≤ length (seen_after self.old.start self.old.steps) }
        ensures failed { OnErr result (IsUnmoved self.old self.new) }
        ensures done { OnOk result (IsWritten at bytes.now self.old self.new) }
        ensures fails { IsErr result ↔ (FailsNext self.old ⊎ self.old.room < self.old.written + length bytes.now) }
        ensures cause { HasCause each self.old.calls.faults self.new.calls.faults result }
    {
        if fails(&mut self.calls, self.recorded) {
            return Err(Failed);
        }
        if bytes.len() > self.room - self.written.len() {
            self.calls.add_fault();
            return Err(Failed);
        }
        let call = DiskCall::Write {
            at: at as usize,
            len: bytes.len(),
        };
        note(&mut self.kept, call);
        append(&mut self.written, bytes);
        put_over(&mut self.bytes, at as usize, bytes);
        Ok(())
    }

    // Keeps a sync.
    fn settle(&mut self) -> Result<(), Failed>
        ensures failed { OnErr result (IsUnmoved self.old self.new) }
        ensures done { OnOk result (IsSynced self.old self.new) }
        ensures fails { IsErr result ↔ FailsNext self.old }
        ensures cause { HasCause each self.old.calls.faults self.new.calls.faults result }
    {
        if fails(&mut self.calls, self.recorded) {
            return Err(Failed);
        }
        note(&mut self.kept, DiskCall::Sync);
        Ok(())
    }
}

impl Disk for MemDisk {
    ghost seen = { λ s. Some (seen_after s.start s.steps) };

    ghost may_leave = { λ s. MayLeave s.start s.steps };

    ghost moment = { λ s. length s.steps };

    ghost left_since = { λ s. LeftSince s.start s.steps };

    ghost faults = { λ s. s.calls.faults };

    ghost counts_now = { λ s t c early may. left_now s.start s.steps t c may };

    ghost only_now = { λ s c left. is_left s.start s.steps c left };

    ghost seen_may_stay = { λ s bytes told. seen_is s.start s.steps bytes told };

    ghost told = { λ s c may. (seen_after s.start s.steps, refl) };

    fn len(&mut self) -> Result<u64, Failed>
        ensures answer { IfOk result (λ len. (file : List ℕ) → Some (seen_after self.new.start self.new.steps)
            ≡ Some file → len ≡ length file) }
        ensures kept { Keeps self.old self.new }
        ensures time { Passes self.old self.new }
        ensures cause { HasCause each self.old.calls.faults self.new.calls.faults result }
        ensures same { self.new ≡ record self.old { calls = self.new.calls } }
        ensures fails { IsErr result ↔ FailsNext self.old }
    {
        self.measure()
    }

    fn read(&mut self, at: u64, out: &mut [u8]) -> Result<(), Failed>
        requires within { (file : List ℕ) → Some (seen_after self.old.start self.old.steps) ≡ Some file
            → at + length out.old ≤ length file }
        ensures bytes { OnOk result ((file : List ℕ) → Some (seen_after self.new.start self.new.steps) ≡ Some file
            → out.new ≡ take (length out.old) (drop at file)) }
        ensures kept { Keeps self.old self.new }
        ensures time { Passes self.old self.new }
        ensures cause { HasCause each self.old.calls.faults self.new.calls.faults result }
        ensures untouched { OnErr result (out.new ≡ out.old) }
        ensures same { self.new ≡ record self.old { calls = self.new.calls } }
        ensures fails { IsErr result ↔ FailsNext self.old }
    {
        self.copy_out(at, out)
    }

    fn write_at(&mut self, at: u64, bytes: &[u8]) -> Result<(), Failed>
        requires within { (file : List ℕ) → Some (seen_after self.old.start self.old.steps) ≡ Some file
            → at ≤ length file }
        ensures written { OnOk result (Told (Written at bytes.now) (Some (seen_after self.old.start self.old.steps))
            (Some (seen_after self.new.start self.new.steps))) }
        ensures seen { Told (Torn at (length bytes.now)) (Some (seen_after self.old.start self.old.steps))
            (Some (seen_after self.new.start self.new.steps)) }
        ensures crash { Follows (Torn at (length bytes.now)) (MayLeave self.old.start self.old.steps)
            (MayLeave self.new.start self.new.steps) }
        ensures time { Passes self.old self.new }
        ensures cause { HasCause each self.old.calls.faults self.new.calls.faults result }
        ensures failed { OnErr result (IsUnmoved self.old self.new) }
        ensures done { OnOk result (IsWritten at bytes.now self.old self.new) }
        ensures fails { IsErr result ↔ (FailsNext self.old ⊎ self.old.room < self.old.written + length bytes.now) }
    {
        self.put(at, bytes)
    }

    fn sync(&mut self) -> Result<(), Failed>
        ensures durable { OnOk result ((file : List ℕ) → Some (seen_after self.new.start self.new.steps) ≡ Some file
            → Only file (MayLeave self.new.start self.new.steps)) }
        ensures kept { Keeps self.old self.new }
        ensures time { Passes self.old self.new }
        ensures cause { HasCause each self.old.calls.faults self.new.calls.faults result }
        ensures failed { OnErr result (IsUnmoved self.old self.new) }
        ensures done { OnOk result (IsSynced self.old self.new) }
        ensures fails { IsErr result ↔ FailsNext self.old }
    {
        self.settle()
    }
}
