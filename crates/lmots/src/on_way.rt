//! Chains of one leaf on their way, each at a step of its own.

ghost use Rattle.std.specs.Prelude.{◌≡◌, ℕ, ◌+◌, ◌-◌, ◌<◌, ◌≤◌, List, slice_index};
ghost use Rattle.lmots.specs.Chain.{steps};
ghost use Rattle.lmots.specs.OnWay.{AreOnWay, IsTable};

use crate::chain::walk;

// The chains of a leaf: chain c stands at `values[c]` before its step `at[c]`, and goes on until its step `to[c]`.
#[derive(Drop)]
pub(crate) struct Chains {
    pub(crate) at: [u8; 265],
    pub(crate) to: [u8; 265],
    pub(crate) values: [[u8; 32]; 265],
}

// Chains that have no steps to go.
pub(crate) fn no_chains() -> Chains
    ensures table { IsTable result.at result.to result.values }
    ensures none { (i : List ℕ) (q : ℕ) (z : ℕ → List ℕ) → AreOnWay i q 0 z result.at result.to result.values }
{
    Chains {
        at: [0; 265],
        to: [0; 265],
        values: [[0; 32]; 265],
    }
}

// Sets one chain on its way.
pub(crate) fn begin(chains: &mut Chains, chain: usize, at: u8, to: u8, value: [u8; 32])
    requires room { chain < 265 }
    requires low { at ≤ to }
    requires table { IsTable chains.old.at chains.old.to chains.old.values }
    ensures table { IsTable chains.new.at chains.new.to chains.new.values }
    ensures goes { (i : List ℕ) (q : ℕ) (z : ℕ → List ℕ) → steps i q chain at (to - at) value ≡ z chain
        → AreOnWay i q chain z chains.old.at chains.old.to chains.old.values
        → AreOnWay i q (chain + 1) z chains.new.at chains.new.to chains.new.values }
{
    chains.at[chain] = at;
    chains.to[chain] = to;
    chains.values[chain] = value;
}

// Notes how far a chain has come.
pub(crate) fn advance(chains: &mut Chains, chain: usize, at: u8, value: [u8; 32])
    requires room { chain < 265 }
    requires low { at ≤ slice_index chains.old.to chain }
    requires table { IsTable chains.old.at chains.old.to chains.old.values }
    ensures table { IsTable chains.new.at chains.new.to chains.new.values }
    ensures ends { chains.new.to ≡ chains.old.to }
    ensures goes { (i : List ℕ) (q n : ℕ) (z : ℕ → List ℕ)
        → steps i q chain at (slice_index chains.old.to chain - at) value ≡ z chain
        → AreOnWay i q n z chains.old.at chains.old.to chains.old.values
        → AreOnWay i q n z chains.new.at chains.new.to chains.new.values }
{
    chains.at[chain] = at;
    chains.values[chain] = value;
}

pub(crate) fn steps_left(chains: &Chains, chain: u16) -> u8
    requires { chain < 265 }
{
    chains.to[chain as usize].saturating_sub(chains.at[chain as usize])
}

// A chain's value at its end, to which it is walked where it has steps left.
pub(crate) fn end_of(i: &[u8; 16], q: u32, chains: &Chains, chain: u16) -> [u8; 32]
    requires room { chain < 265 }
    requires table { IsTable chains.now.at chains.now.to chains.now.values }
    ensures { (n : ℕ) (z : ℕ → List ℕ) → chain < n
        → AreOnWay i.now q n z chains.now.at chains.now.to chains.now.values → result ≡ z chain }
{
    let at = chain as usize;
    walk(i, q, chain, chains.at[at], chains.to[at], chains.values[at])
}
