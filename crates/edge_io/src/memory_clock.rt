//! A clock in memory.

ghost use Rattle.std.specs.Prelude.{◌≡◌, ◌∷◌, ◌↔◌, ◌⊎◌, [], length, IfOk, OnErr, IsErr, IsTrue, Some};
ghost use Rattle.octets.specs.Causes.{HasCause, each};
ghost use Rattle.octets.specs.Calls.{fails_next};
ghost use Rattle.edge_io.specs.Clocks.{after_asking};

use crate::{Clock, Failed};
use octets::FailingCalls;
use std::marker::Model;

/// Moments in memory that are given in their order. It tells what is left, and fails at the calls that are listed,
/// where no moment is left, and nowhere else.
#[derive(Drop)]
pub struct MemClock {
    content: Vec<u64>,
    at: usize,
    calls: FailingCalls,
}

impl Model for MemClock {
    ghost use Rattle.edge_io.specs.Clocks.{Telling};

    ghost Value = { Telling };

    ghost use Rattle.std.specs.Prelude.{◌≤◌, length, drop};

    ghost view = { λ s. record { left = drop s.at s.content.items; calls = s.calls } };

    ghost invariant = { λ s. s.at ≤ length s.content.items };
}

impl MemClock {
    /// These moments, in seconds since the beginning of 1970, of which no call fails. It takes no memory.
    pub fn new(content: Vec<u64>) -> MemClock
        ensures { result ≡ record { left = content.items; calls = record { listed = []; made = 0; faults = 0 } } }
    {
        let calls = FailingCalls::none(*content.allocator());
        MemClock {
            content,
            at: 0,
            calls,
        }
    }

    /// These moments, of which the calls with these numbers fail, counted from 1. It takes no memory.
    pub fn failing(content: Vec<u64>, calls: Vec<u64>) -> MemClock
        ensures { result ≡ record {
          left = content.items;
          calls = record { listed = calls.items; made = 0; faults = 0 };
        } }
    {
        MemClock {
            content,
            at: 0,
            calls: FailingCalls::listed(calls),
        }
    }
}

impl Clock for MemClock {
    ghost left = { λ s. Some s.left };

    ghost faults = { λ s. s.calls.faults };

    fn seconds(&mut self) -> Result<u64, Failed>
        ensures moment { IfOk result (λ seconds. self.old.left ≡ seconds ∷ self.new.left) }
        ensures failed { OnErr result (self.new.left ≡ self.old.left) }
        ensures cause { HasCause each self.old.calls.faults self.new.calls.faults result }
        ensures fails { IsErr result ↔ (IsTrue (fails_next self.old.calls) ⊎ (self.old.left ≡ [])) }
        ensures counted { self.new.calls ≡ after_asking self.old }
    {
        if self.calls.fails() {
            return Err(Failed);
        }
        if self.at >= self.content.len() {
            self.calls.add_fault();
            return Err(Failed);
        }
        let seconds = self.content[self.at];
        self.at += 1;
        Ok(seconds)
    }
}
