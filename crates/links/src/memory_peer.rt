//! A program that is asked, in memory.

ghost use Rattle.std.specs.Prelude.{◌≡◌, ◌≤◌, ◌<◌, ◌+◌, ◌++◌, ◌↔◌, ◌⊎◌, [], length, take, min, None, Some};
ghost use Rattle.std.specs.Prelude.{IfOk, OnErr, OnOk, IsErr, IsTrue};
ghost use Rattle.octets.specs.Causes.{HasCause, each};
ghost use Rattle.octets.specs.Calls.{after_call, fails_next};
ghost use Rattle.edge_io.specs.Told.{after_write};
ghost use Rattle.links.specs.MemoryPeers.{as_sink};

use crate::Peer;
use edge_io::{Failed, MemSink, MemSource, Sink, Source};
use octets::{FailingCalls, Memory, Octets};
use std::marker::Model;

/// A peer in memory, which gives these bytes whatever it is sent and at whatever port it is. It tells the port, what is
/// left to read and what was written, takes each piece whole, and fails at the calls that are listed, at a piece that
/// would pass its room, and nowhere else.
#[derive(Drop)]
pub struct MemPeer {
    port: Option<u16>,
    source: MemSource,
    sink: MemSink,
    calls: FailingCalls,
}

impl Model for MemPeer {
    ghost use Rattle.links.specs.MemoryPeers.{Peering};

    ghost Value = { Peering };

    ghost use Rattle.std.specs.Prelude.{◌≡◌, []};

    ghost view = { λ s. record {
      port = s.port;
      left = s.source.left;
      given = s.sink.contents;
      room = s.sink.room;
      calls = s.calls;
    } };

    ghost invariant = { λ s. (s.source.calls.listed ≡ []) × (s.sink.calls.listed ≡ []) };
}

impl MemPeer {
    /// A peer that gives these bytes to reads and has room for so many to be written, of which no call fails.
    pub fn new(content: Octets, room: usize) -> Result<MemPeer, Memory>
        ensures { IfOk result (λ peer. peer ≡ record {
          port = None;
          left = content;
          given = [];
          room = room;
          calls = record { listed = []; made = 0; faults = 0 };
        }) }
    {
        let calls = Vec::new(content.allocator());
        MemPeer::failing(content, room, calls)
    }

    /// The same, of which the calls with these numbers fail, whichever they are, counted from 1.
    pub fn failing(content: Octets, room: usize, calls: Vec<u64>) -> Result<MemPeer, Memory>
        ensures { IfOk result (λ peer. peer ≡ record {
          port = None;
          left = content;
          given = [];
          room = room;
          calls = record { listed = calls.items; made = 0; faults = 0 };
        }) }
    {
        let alloc = content.allocator();
        Ok(MemPeer {
            port: None,
            source: MemSource::new(content),
            sink: MemSink::new(alloc, room)?,
            calls: FailingCalls::listed(calls),
        })
    }

    /// What was written.
    pub fn given(&self) -> &[u8]
        ensures { result.now ≡ self.now.given }
    {
        self.sink.contents()
    }

    /// The port of the last connection, if there was one.
    pub fn port(&self) -> Option<u16>
        ensures { result ≡ self.now.port }
    {
        self.port
    }
}

impl Peer for MemPeer {
    ghost connected = { λ s. s.port };

    ghost left = { λ s. Some s.left };

    ghost given = { λ s. Some s.given };

    ghost faults = { λ s. s.calls.faults };

    fn connect(&mut self, port: u16) -> Result<(), Failed>
        ensures port { OnOk result (self.new.port ≡ Some port) }
        ensures failed { OnErr result (self.new.port ≡ self.old.port) }
        ensures unread { self.new.left ≡ self.old.left }
        ensures unwritten { self.new.given ≡ self.old.given }
        ensures cause { HasCause each self.old.calls.faults self.new.calls.faults result }
        ensures fails { IsErr result ↔ IsTrue (fails_next self.old.calls) }
        ensures counted { self.new.calls ≡ after_call self.old.calls }
        ensures room { self.new.room ≡ self.old.room }
    {
        if self.calls.fails() {
            return Err(Failed);
        }
        self.port = Some(port);
        Ok(())
    }

    fn write(&mut self, bytes: &[u8]) -> Result<usize, Failed>
        ensures whole { IfOk result (λ count. count ≡ length bytes.now) }
        ensures bytes { IfOk result (λ _. self.new.given ≡ self.old.given ++ bytes.now) }
        ensures failed { OnErr result (self.new.given ≡ self.old.given) }
        ensures unread { self.new.left ≡ self.old.left }
        ensures port { self.new.port ≡ self.old.port }
        ensures cause { HasCause each self.old.calls.faults self.new.calls.faults result }
        ensures fails { IsErr result ↔ (IsTrue (fails_next self.old.calls) ⊎ self.old.room < length self.old.given
            + length bytes.now) }
        ensures counted { self.new.calls ≡ after_write (as_sink self.old) bytes.now }
        ensures room { self.new.room ≡ self.old.room }
    {
        if self.calls.fails() {
            return Err(Failed);
        }
        match self.sink.write(bytes) {
            Ok(count) => Ok(count),
            Err(Failed) => {
                self.calls.add_fault();
                Err(Failed)
            }
        }
    }

    fn read(&mut self, buf: &mut [u8]) -> Result<usize, Failed>
        ensures bound { IfOk result (λ count. count ≤ length buf.new) }
        ensures bytes { IfOk result (λ count. self.old.left ≡ take count buf.new ++ self.new.left) }
        ensures end { IfOk result (λ count. count ≡ 0 → 0 < length buf.new → self.old.left ≡ []) }
        ensures failed { OnErr result (self.new.left ≡ self.old.left) }
        ensures unwritten { self.new.given ≡ self.old.given }
        ensures port { self.new.port ≡ self.old.port }
        ensures cause { HasCause each self.old.calls.faults self.new.calls.faults result }
        ensures full { IfOk result (λ count. count ≡ min (length self.old.left) (length buf.new)) }
        ensures fails { IsErr result ↔ IsTrue (fails_next self.old.calls) }
        ensures counted { self.new.calls ≡ after_call self.old.calls }
        ensures room { self.new.room ≡ self.old.room }
    {
        if self.calls.fails() {
            return Err(Failed);
        }
        match self.source.read(buf) {
            Ok(count) => Ok(count),
            Err(Failed) => unreachable!(),
        }
    }
}
