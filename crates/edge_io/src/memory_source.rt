//! A source in memory.

ghost use Rattle.std.specs.Prelude.{◌≡◌, ◌≤◌, ◌<◌, ◌++◌, ◌↔◌, [], length, take, drop, min, IfOk, OnErr, IsErr, IsTrue};
ghost use Rattle.std.specs.Prelude.{Some};
ghost use Rattle.octets.specs.Causes.{HasCause, each};
ghost use Rattle.octets.specs.Calls.{after_call, fails_next};

use crate::{Failed, Source};
use octets::{FailingCalls, Octets};
use std::marker::Model;

/// Bytes in memory, of which each call gives as many as fit. It tells what is left, and fails at the calls
/// that are listed and nowhere else; then the buffer is as it was.
#[derive(Drop)]
pub struct MemSource {
    content: Octets,
    at: usize,
    calls: FailingCalls,
}

impl Model for MemSource {
    ghost use Rattle.edge_io.specs.Told.{Giving};

    ghost Value = { Giving };

    ghost use Rattle.std.specs.Prelude.{◌≤◌, length, drop};

    ghost view = { λ s. record { left = drop s.at s.content; calls = s.calls } };

    ghost invariant = { λ s. s.at ≤ length s.content };
}

impl MemSource {
    /// A source of these bytes of which no call fails. It takes no memory.
    pub fn new(content: Octets) -> MemSource
        ensures { result ≡ record { left = content; calls = record { listed = []; made = 0; faults = 0 } } }
    {
        let calls = FailingCalls::none(content.allocator());
        MemSource {
            content,
            at: 0,
            calls,
        }
    }

    /// A source of these bytes of which the calls with these numbers fail, counted from 1. It takes no memory.
    pub fn failing(content: Octets, calls: Vec<u64>) -> MemSource
        ensures { result ≡ record { left = content; calls = record { listed = calls.items; made = 0; faults = 0 } } }
    {
        MemSource {
            content,
            at: 0,
            calls: FailingCalls::listed(calls),
        }
    }
}

// Copies what fits from the front of `from`, and answers how many bytes.
fn copy_front(from: &[u8], to: &mut [u8]) -> usize
    ensures bound { result ≤ length to.new }
    ensures bytes { take result to.new ≡ take result from.now }
    ensures within { result ≤ length from.now }
    ensures full { result ≡ min (length from.now) (length to.new) }
    ensures rest { drop result to.new ≡ drop result to.old }
{
    let count = from.len().min(to.len());
    let (front, _) = from.split_at(count);
    let (space, _) = to.split_at_mut(count);
    space.copy_from_slice(front);
    count
}

impl Source for MemSource {
    ghost left = { λ s. Some s.left };

    ghost faults = { λ s. s.calls.faults };

    fn read(&mut self, buf: &mut [u8]) -> Result<usize, Failed>
        ensures bound { IfOk result (λ count. count ≤ length buf.new) }
        ensures bytes { IfOk result (λ count. self.old.left ≡ take count buf.new ++ self.new.left) }
        ensures end { IfOk result (λ count. count ≡ 0 → 0 < length buf.new → self.old.left ≡ []) }
        ensures failed { OnErr result (self.new.left ≡ self.old.left) }
        ensures cause { HasCause each self.old.calls.faults self.new.calls.faults result }
        ensures full { IfOk result (λ count. count ≡ min (length self.old.left) (length buf.new)) }
        ensures rest { IfOk result (λ count. drop count buf.new ≡ drop count buf.old) }
        ensures untouched { OnErr result (buf.new ≡ buf.old) }
        ensures fails { IsErr result ↔ IsTrue (fails_next self.old.calls) }
        ensures counted { self.new.calls ≡ after_call self.old.calls }
    {
        if self.calls.fails() {
            return Err(Failed);
        }
        let (_, rest) = self.content.as_slice().split_at(self.at);
        let count = copy_front(rest, buf);
        self.at += count;
        Ok(count)
    }
}
