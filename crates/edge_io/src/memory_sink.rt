//! A sink in memory.

ghost use Rattle.std.specs.Prelude.{◌≡◌, ◌≤◌, ◌<◌, ◌+◌, ◌++◌, ◌↔◌, ◌⊎◌, [], length, take, IfOk, OnErr, IsErr, IsTrue};
ghost use Rattle.std.specs.Prelude.{Some};
ghost use Rattle.octets.specs.Causes.{HasCause, each};
ghost use Rattle.octets.specs.Calls.{after_call, fails_next};
ghost use Rattle.edge_io.specs.Told.{after_write};

use crate::{Failed, Sink};
use octets::{FailingCalls, Memory};
use std::alloc::Global;
use std::marker::Model;

/// A sink with room for a number of bytes. It tells what was written, takes each piece whole, and fails at the
/// calls that are listed, at a piece that would pass its room, and nowhere else.
#[derive(Drop)]
pub struct MemSink {
    contents: Vec<u8>,
    room: usize,
    calls: FailingCalls,
}

impl Model for MemSink {
    ghost use Rattle.edge_io.specs.Told.{Taking};

    ghost Value = { Taking };

    ghost use Rattle.std.specs.Prelude.{◌≤◌};
    ghost use Rattle.std.specs.Vec.{vec_len, vec_capacity};

    ghost view = { λ s. record { contents = s.contents.items; room = s.room; calls = s.calls } };

    ghost invariant = { λ s. (vec_len s.contents ≤ s.room) × (s.room ≤ vec_capacity s.contents) };
}

impl MemSink {
    /// A sink with room for so many bytes of which no call fails.
    pub fn new(alloc: Global, room: usize) -> Result<MemSink, Memory>
        ensures { IfOk result (λ sink. sink ≡ record {
          contents = [];
          room = room;
          calls = record { listed = []; made = 0; faults = 0 };
        }) }
    {
        Ok(MemSink {
            contents: Vec::with_capacity(alloc, room)?,
            room,
            calls: FailingCalls::none(alloc),
        })
    }

    /// A sink with room for so many bytes of which the calls with these numbers fail, counted from 1.
    pub fn failing(alloc: Global, room: usize, calls: Vec<u64>) -> Result<MemSink, Memory>
        ensures { IfOk result (λ sink. sink ≡ record {
          contents = [];
          room = room;
          calls = record { listed = calls.items; made = 0; faults = 0 };
        }) }
    {
        Ok(MemSink {
            contents: Vec::with_capacity(alloc, room)?,
            room,
            calls: FailingCalls::listed(calls),
        })
    }

    /// What was written.
    pub fn contents(&self) -> &[u8]
        ensures { result.now ≡ self.now.contents }
    {
        self.contents.as_slice()
    }
}

impl Sink for MemSink {
    ghost contents = { λ s. Some s.contents };

    ghost faults = { λ s. s.calls.faults };

    fn write(&mut self, bytes: &[u8]) -> Result<usize, Failed>
        ensures whole { IfOk result (λ count. count ≡ length bytes.now) }
        ensures bytes { IfOk result (λ _. self.new.contents ≡ self.old.contents ++ bytes.now) }
        ensures failed { OnErr result (self.new.contents ≡ self.old.contents) }
        ensures cause { HasCause each self.old.calls.faults self.new.calls.faults result }
        ensures fails { IsErr result ↔ (IsTrue (fails_next self.old.calls) ⊎ self.old.room < length self.old.contents
            + length bytes.now) }
        ensures counted { self.new.calls ≡ after_write self.old bytes.now }
        ensures room { self.new.room ≡ self.old.room }
    {
        if self.calls.fails() {
            return Err(Failed);
        }
        if bytes.len() > self.room - self.contents.len() {
            self.calls.add_fault();
            return Err(Failed);
        }
        match self.contents.extend_from_slice(bytes) {
            Ok(()) => Ok(bytes.len()),
            Err(_) => unreachable!(),
        }
    }
}
