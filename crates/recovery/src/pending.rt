//! Pending numbers, in rising order.

ghost use Rattle.std.specs.Prelude.{◌≡◌, ◌<◌, ◌≤◌, ◌++◌, ◌∷◌, [], nat_lt, IfSome, OnOk, OnErr};
ghost use Rattle.std.specs.List.{All, filter, list_any};
ghost use Rattle.recovery.specs.Lanes.{first_of, is_in, is_outside};

use octets::Memory;
use std::alloc::Global;
use std::marker::Model;

/// Numbers that rise.
#[derive(Drop)]
pub struct Pending {
    numbers: Vec<u64>,
}

impl Model for Pending {
    ghost use Rattle.std.specs.Prelude.{◌<◌, ℕ, List};
    ghost use Rattle.std.specs.List.{AllPairs};

    ghost Value = { List ℕ };

    ghost view = { λ p. p.numbers.items };

    ghost invariant = { λ p. AllPairs (λ m n. m < n) p.numbers.items };
}

impl Pending {
    /// No number. It takes no memory.
    pub fn new(alloc: Global) -> Pending
        ensures { result ≡ [] }
    {
        Pending {
            numbers: Vec::new(alloc),
        }
    }

    /// The least number.
    pub fn first(&self) -> Option<u64>
        ensures first { result ≡ first_of self.now }
        ensures least { IfSome result (λ n. All (λ m. n ≤ m) self.now) }
    {
        self.numbers.as_slice().first().copied()
    }

    /// Whether there is a number greater than this one.
    pub fn passes(&self, above: u64) -> bool
        ensures { result ≡ list_any (nat_lt above) self.now }
    {
        match self.numbers.as_slice().last() {
            Some(last) => above < *last,
            None => false,
        }
    }

    /// Whether a number is among them.
    pub fn has(&self, number: u64) -> bool
        ensures { result ≡ is_in number self.now }
    {
        match self.numbers.as_slice().binary_search(&number) {
            Ok(_) => true,
            Err(_) => false,
        }
    }

    /// Adds a number at the end. After a refusal nothing has changed.
    pub fn push(&mut self, number: u64) -> Result<(), Memory>
        requires { All (λ n. n < number) self.old }
        ensures added { OnOk result (self.new ≡ self.old ++ number ∷ []) }
        ensures same { OnErr result (self.new ≡ self.old) }
    {
        match self.numbers.push(number) {
            Ok(()) => Ok(()),
            Err(_) => Err(Memory),
        }
    }

    /// Takes the numbers strictly between the two away.
    pub fn fix(&mut self, above: u64, below: u64)
        ensures { self.new ≡ filter (is_outside above below) self.old }
    {
        let start = self.numbers.as_slice().partition_point(|n| *n <= above);
        let end = self.numbers.as_slice().partition_point(|n| *n < below);
        if start < end {
            let _ = self.numbers.drain(start..end);
        }
    }
}
