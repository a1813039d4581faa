//! Where random bytes come from.

ghost use Rattle.std.specs.Prelude.{◌≡◌, ℕ, List, None, OnErr, OnOk};
ghost use Rattle.std.specs.declared.option.Option.{Option};
ghost use Rattle.octets.specs.Causes.{HasCause, each};
ghost use Rattle.octets.specs.Content.{with_front};

use crate::Failed;
use std::random::RandomSource;

/// Where random bytes come from.
pub trait Entropy {
    /// The bytes that are left to draw, where they are told.
    ghost left: { Self → Option (List ℕ) };

    /// How many calls failed. It never falls, and stands still at 2^64 - 1.
    ghost faults: { Self → ℕ };

    /// Fills a buffer with the next bytes. Where it fails, none were drawn.
    fn fill(&mut self, out: &mut [u8]) -> Result<(), Failed>
        ensures bytes { OnOk result (left self.old ≡ with_front out.new (left self.new)) }
        ensures failed { OnErr result (left self.new ≡ left self.old) }
        ensures cause { HasCause each (faults self.old) (faults self.new) result };
}

/// The system's random bytes. It tells none of them.
#[derive(Drop)]
pub struct OsEntropy<'a, R> {
    system: &'a R,
    faults: u64,
}

impl<'a, R> OsEntropy<'a, R> {
    /// The random bytes of a system.
    pub fn new(system: &'a R) -> OsEntropy<'a, R>
        ensures { result.faults ≡ 0 }
    {
        OsEntropy { system, faults: 0 }
    }
}

impl<'a, R: RandomSource> Entropy for OsEntropy<'a, R> {
    ghost left = { λ _. None };

    ghost faults = { λ s. s.faults };

    fn fill(&mut self, out: &mut [u8]) -> Result<(), Failed> {
        match self.system.fill_bytes(out) {
            Ok(()) => Ok(()),
            Err(_) => {
                self.faults = self.faults.saturating_add(1);
                Err(Failed)
            }
        }
    }
}
