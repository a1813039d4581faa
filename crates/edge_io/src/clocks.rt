//! Where the time comes from.

ghost use Rattle.std.specs.Prelude.{◌≡◌, ◌∷◌, ℕ, List, [], None, IfOk, OnErr};
ghost use Rattle.std.specs.declared.option.Option.{Option};
ghost use Rattle.octets.specs.Causes.{HasCause, each};
ghost use Rattle.octets.specs.Content.{with_front};

use crate::Failed;
use std::rt;
use std::time::{SystemTime, UNIX_EPOCH};

/// Where the time comes from.
pub trait Clock {
    /// The moments that are left to give, in seconds since the beginning of 1970, where they are told.
    ghost left: { Self → Option (List ℕ) };

    /// How many calls failed. It never falls, and stands still at 2^64 - 1.
    ghost faults: { Self → ℕ };

    /// The time in whole seconds since the beginning of 1970 (UTC, without leap seconds). After `Failed` the moments
    /// that are left are as before.
    fn seconds(&mut self) -> Result<u64, Failed>
        ensures moment { IfOk result (λ seconds. left self.old ≡ with_front (seconds ∷ []) (left self.new)) }
        ensures failed { OnErr result (left self.new ≡ left self.old) }
        ensures cause { HasCause each (faults self.old) (faults self.new) result };
}

/// The system's clock. It tells no moment; a time before 1970 is a fault.
#[derive(Drop)]
pub struct OsClock<'a, R> {
    system: &'a R,
    faults: u64,
}

impl<'a, R> OsClock<'a, R> {
    /// The clock of a system.
    pub fn new(system: &'a R) -> OsClock<'a, R>
        ensures { result.faults ≡ 0 }
    {
        OsClock { system, faults: 0 }
    }
}

// The time of a system, where it has one that is not before 1970.
fn seconds_of<R: rt::Clock>(system: &R) -> Result<u64, Failed> {
    let Ok(now) = SystemTime::now(system) else {
        return Err(Failed);
    };
    match now.duration_since(UNIX_EPOCH) {
        Ok(since) => Ok(since.as_secs()),
        Err(_) => Err(Failed),
    }
}

impl<'a, R: rt::Clock> Clock for OsClock<'a, R> {
    ghost left = { λ _. None };

    ghost faults = { λ s. s.faults };

    fn seconds(&mut self) -> Result<u64, Failed> {
        match seconds_of(self.system) {
            Ok(seconds) => Ok(seconds),
            Err(Failed) => {
                self.faults = self.faults.saturating_add(1);
                Err(Failed)
            }
        }
    }
}
