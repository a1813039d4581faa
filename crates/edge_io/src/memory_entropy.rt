//! Random bytes in memory.

ghost use Rattle.std.specs.Prelude.{◌≡◌, ◌<◌, ◌++◌, ◌↔◌, ◌⊎◌, [], length, drop, OnOk, OnErr, IsErr, IsTrue, Some};
ghost use Rattle.octets.specs.Causes.{HasCause, each};
ghost use Rattle.octets.specs.Calls.{fails_next};
ghost use Rattle.edge_io.specs.Drawn.{after_draw};

use crate::{Entropy, Failed};
use octets::{FailingCalls, Octets};
use std::marker::Model;

/// Bytes in memory that are drawn in their order. It tells what is left, and fails at the calls that are listed, at a
/// call for more than is left, and nowhere else; then the buffer is as it was.
#[derive(Drop)]
pub struct MemEntropy {
    content: Octets,
    at: usize,
    calls: FailingCalls,
}

impl Model for MemEntropy {
    ghost use Rattle.edge_io.specs.Drawn.{Drawing};

    ghost Value = { Drawing };

    ghost use Rattle.std.specs.Prelude.{◌≤◌, length, drop};

    ghost view = { λ s. record { left = drop s.at s.content; calls = s.calls } };

    ghost invariant = { λ s. s.at ≤ length s.content };
}

impl MemEntropy {
    /// These bytes, of which no call fails. It takes no memory.
    pub fn new(content: Octets) -> MemEntropy
        ensures { result ≡ record { left = content; calls = record { listed = []; made = 0; faults = 0 } } }
    {
        let calls = FailingCalls::none(content.allocator());
        MemEntropy {
            content,
            at: 0,
            calls,
        }
    }

    /// These bytes, of which the calls with these numbers fail, counted from 1. It takes no memory.
    pub fn failing(content: Octets, calls: Vec<u64>) -> MemEntropy
        ensures { result ≡ record { left = content; calls = record { listed = calls.items; made = 0; faults = 0 } } }
    {
        MemEntropy {
            content,
            at: 0,
            calls: FailingCalls::listed(calls),
        }
    }
}

impl Entropy for MemEntropy {
    ghost left = { λ s. Some s.left };

    ghost faults = { λ s. s.calls.faults };

    fn fill(&mut self, out: &mut [u8]) -> Result<(), Failed>
        ensures bytes { OnOk result (self.old.left ≡ out.new ++ self.new.left) }
        ensures failed { OnErr result (self.new.left ≡ self.old.left) }
        ensures untouched { OnErr result (out.new ≡ out.old) }
        ensures cause { HasCause each self.old.calls.faults self.new.calls.faults result }
        ensures fails { IsErr result ↔ (IsTrue (fails_next self.old.calls) ⊎ length self.old.left < length out.old) }
        ensures counted { self.new.calls ≡ after_draw self.old (length out.old) }
    {
        if self.calls.fails() {
            return Err(Failed);
        }
        let (_, rest) = self.content.as_slice().split_at(self.at);
        if rest.len() < out.len() {
            self.calls.add_fault();
            return Err(Failed);
        }
        let (front, _) = rest.split_at(out.len());
        out.copy_from_slice(front);
        self.at += out.len();
        Ok(())
    }
}
