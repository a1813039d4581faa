//! A door in memory.

ghost use Rattle.std.specs.Prelude.{◌≡◌, ◌<◌, ◌++◌, ◌∷◌, ◌↔◌, [], Some, IfOk, IfSome, IsErr, IsTrue, OnErr};
ghost use Rattle.octets.specs.Calls.{after_call, fails_next};
ghost use Rattle.octets.specs.Causes.{HasCause, each};
ghost use Rattle.links.specs.Doors.{Gives};

use crate::{Door, Link, MemLink};
use edge_io::{Failed, MemSink, MemSource};
use octets::{FailingCalls, Memory};
use std::marker::Model;

/// Links in memory, given one after another. It tells those that are still to come and those that it has back, and
/// fails at the calls of `next` that are listed and nowhere else.
#[derive(Drop)]
pub struct MemDoor {
    waiting: Vec<MemLink>,
    back: Vec<MemLink>,
    out: usize,
    calls: FailingCalls,
}

impl Model for MemDoor {
    ghost use Rattle.links.specs.MemoryDoors.{Keeping};

    ghost Value = { Keeping };

    ghost use Rattle.std.specs.Prelude.{◌≤◌, ◌+◌};
    ghost use Rattle.std.specs.Vec.{vec_len, vec_capacity};

    ghost view = { λ s. record { waiting = s.waiting.items; back = s.back.items; out = s.out; calls = s.calls } };

    ghost invariant = { λ s. vec_len s.waiting + s.out + vec_len s.back ≤ vec_capacity s.back };
}

impl MemDoor {
    /// A door with these links of which no call fails. It has room for all of them from its making.
    pub fn new(links: Vec<MemLink>) -> Result<MemDoor, Memory>
        ensures { IfOk result (λ door. door ≡ record {
          waiting = links.items;
          back = [];
          out = 0;
          calls = record { listed = []; made = 0; faults = 0 };
        }) }
    {
        let alloc = *links.allocator();
        let calls = Vec::new(alloc);
        MemDoor::failing(links, calls)
    }

    /// The same, of which the calls of `next` with these numbers fail, counted from 1.
    pub fn failing(links: Vec<MemLink>, calls: Vec<u64>) -> Result<MemDoor, Memory>
        ensures { IfOk result (λ door. door ≡ record {
          waiting = links.items;
          back = [];
          out = 0;
          calls = record { listed = calls.items; made = 0; faults = 0 };
        }) }
    {
        let alloc = *links.allocator();
        let back = Vec::with_capacity(alloc, links.len())?;
        Ok(MemDoor {
            waiting: links,
            back,
            out: 0,
            calls: FailingCalls::listed(calls),
        })
    }

    /// The links that were handed back, in order.
    pub fn handed_back(&self) -> &[MemLink]
        ensures { result.now ≡ self.now.back }
    {
        self.back.as_slice()
    }
}

impl Door for MemDoor {
    type Input = MemSource;

    type Output = MemSink;

    ghost waiting = { λ s. Some s.waiting };

    ghost handed_back = { λ s. Some s.back };

    ghost faults = { λ s. s.calls.faults };

    ghost is_out = { λ s. 0 < s.out };

    #[tactic(auto, using(crate::proofs::Waiting::first_of))]
    fn next(&mut self) -> Result<Option<MemLink>, Failed>
        ensures given { IfOk result (λ link. Gives link (Some self.old.waiting) (Some self.new.waiting)) }
        ensures failed { OnErr result (self.new.waiting ≡ self.old.waiting) }
        ensures same { self.new.back ≡ self.old.back }
        ensures out { IfOk result (λ link. IfSome link (λ _. 0 < self.new.out)) }
        ensures cause { HasCause each self.old.calls.faults self.new.calls.faults result }
        ensures fails { IsErr result ↔ IsTrue (fails_next self.old.calls) }
        ensures counted { self.new.calls ≡ after_call self.old.calls }
    {
        if self.calls.fails() {
            return Err(Failed);
        }
        if self.waiting.is_empty() {
            return Ok(None);
        }
        let link = self.waiting.remove(0);
        self.out += 1;
        Ok(Some(link))
    }

    fn done(&mut self, link: MemLink)
        requires { 0 < self.old.out }
        ensures back { self.new.back ≡ self.old.back ++ link ∷ [] }
        ensures same { self.new.waiting ≡ self.old.waiting }
        ensures quiet { self.new.calls ≡ self.old.calls }
    {
        self.out -= 1;
        match self.back.push(link) {
            Ok(()) => {}
            Err(_) => unreachable!(),
        }
    }
}
