//! Which calls of an object in memory fail, so that a test can have a fault where it wants one.

ghost use Rattle.std.specs.Prelude.{◌≡◌, ◌≤◌, [], IsTrue, false};
ghost use Rattle.octets.specs.Causes.{one_more};

use std::alloc::Global;
use std::marker::Model;

/// The numbers of the calls that fail, how many calls were made, and how many of them failed.
#[derive(Drop)]
pub struct FailingCalls {
    listed: Vec<u64>,
    made: u64,
    faults: u64,
}

impl Model for FailingCalls {
    ghost use Rattle.octets.specs.Calls.{Calls};

    ghost Value = { Calls };

    ghost view = { λ s. record { listed = s.listed.items; made = s.made; faults = s.faults } };
}

impl FailingCalls {
    ghost use Rattle.octets.specs.Calls.{after_call, after_other, fails_next, with_fault};

    /// Calls of which none fails and none was made. It takes no memory.
    pub fn none(alloc: Global) -> Self
        ensures { result ≡ record { listed = []; made = 0; faults = 0 } }
    {
        FailingCalls {
            listed: Vec::new(alloc),
            made: 0,
            faults: 0,
        }
    }

    /// Calls of which those with these numbers fail, counted from 1, and none was made.
    pub fn listed(listed: Vec<u64>) -> Self
        ensures { result ≡ record { listed = listed.items; made = 0; faults = 0 } }
    {
        FailingCalls {
            listed,
            made: 0,
            faults: 0,
        }
    }

    /// Whether the next call is one that fails.
    pub fn fails_next(&self) -> bool
        ensures { result ≡ fails_next self.now }
    {
        self.listed.contains(&self.made.saturating_add(1))
    }

    /// Counts a call, and tells whether it is one that fails.
    pub fn fails(&mut self) -> bool
        ensures answer { result ≡ fails_next self.old }
        ensures counted { self.new ≡ after_call self.old }
        ensures later { self.old.faults ≤ self.new.faults }
        ensures quiet { result ≡ false → self.new.faults ≡ self.old.faults }
        ensures risen { IsTrue result → self.new.faults ≡ one_more self.old.faults }
    {
        let fails = self.fails_next();
        self.made = self.made.saturating_add(1);
        if fails {
            self.faults = self.faults.saturating_add(1);
        }
        fails
    }

    /// Counts a call that fails for another cause than its number, of which no fault is counted.
    pub fn count_other(&mut self)
        ensures { self.new ≡ after_other self.old }
    {
        self.made = self.made.saturating_add(1);
    }

    /// Counts a fault of the last call that is not among those listed.
    pub fn add_fault(&mut self)
        ensures counted { self.new ≡ with_fault self.old }
        ensures later { self.old.faults ≤ self.new.faults }
        ensures risen { self.new.faults ≡ one_more self.old.faults }
    {
        self.faults = self.faults.saturating_add(1);
    }

    /// How many calls were made.
    pub fn made(&self) -> u64
        ensures { result ≡ self.now.made }
    {
        self.made
    }

    /// How many calls failed.
    pub fn faults(&self) -> u64
        ensures { result ≡ self.now.faults }
    {
        self.faults
    }
}
