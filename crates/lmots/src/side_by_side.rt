//! Eight chains at once: the starts of eight chains of a leaf, or the same whole chain of eight leaves.

ghost use Rattle.std.specs.Prelude.{◌≡◌, ℕ, ◌+◌, ◌-◌, ◌*◌, ◌/◌, ◌%◌, ◌^◌, ◌<◌, ◌≤◌, [], slice_index_or};
ghost use Rattle.sha2.specs.Sha256.{sha256};
ghost use Rattle.sha256_lanes.specs.Chain.{message, walked};
ghost use Rattle.lmots.specs.OtsType.{width};
ghost use Rattle.lmots.specs.Chain.{head, private_element};
ghost use Rattle.lmots.specs.OneTime.{ended};
ghost use Rattle.lmots.specs.SideBySide.{ArePieces};

use crate::hashes::{START, head};
use crate::ots_type::OtsType;
use sha256_lanes::{step, walk};

fn heads_of_chains(i: &[u8; 16], q: u32, first: u16) -> [[u8; 22]; 8]
    requires { first + 8 ≤ 65536 }
    ensures { ArePieces (λ chain. head i.now q chain) first result }
{
    let mut heads = [[0u8; 22]; 8];
    'lanes: for lane in 0..8 {
        heads[lane] = head(i, q, first + lane as u16);
    }
    heads
}

fn heads_of_leaves(i: &[u8; 16], first: u32, chain: u16) -> [[u8; 22]; 8]
    requires { first + 8 ≤ 2 ^ 32 }
    ensures { ArePieces (λ q. head i.now q chain) first result }
{
    let mut heads = [[0u8; 22]; 8];
    'lanes: for lane in 0..8 {
        heads[lane] = head(i, first + lane as u32, chain);
    }
    heads
}

// The ends of the chains with these heads, whose starts are drawn from the seed.
fn ends(kind: OtsType, heads: &[[u8; 22]; 8], seed: &[u8; 32]) -> [[u8; 32]; 8]
    ensures { (k : ℕ) → k < 8 → slice_index_or result k []
        ≡ walked (slice_index_or heads.now k []) 0 (2 ^ width kind - 1)
        (sha256 (message (slice_index_or heads.now k []) 0xff seed.now)) }
{
    let starts = step(heads, START, &[*seed; 8]);
    walk(heads, 0, kind.top(), &starts)
}

// The ends of a chain of eight leaves, of which `first` is the first.
pub(crate) fn ends_of_leaves(
    kind: OtsType,
    i: &[u8; 16],
    first: u32,
    seed: &[u8; 32],
    chain: u16,
) -> [[u8; 32]; 8]
    requires { first + 8 ≤ 2 ^ 32 }
    ensures { ArePieces (λ q. ended kind i.now q seed.now chain) first result }
{
    ends(kind, &heads_of_leaves(i, first, chain), seed)
}

// The starts of eight chains of a leaf, of which `first` is the first, drawn from the seed.
fn starts_of_chains(i: &[u8; 16], q: u32, first: u16, seed: &[u8; 32]) -> [[u8; 32]; 8]
    requires { first + 8 ≤ 65536 }
    ensures { ArePieces (λ chain. private_element i.now q chain seed.now) first result }
{
    step(&heads_of_chains(i, q, first), START, &[*seed; 8])
}

// The starts of the eight chains among which `chain` is: those before it where they have it, and
// else drawn anew. Where the number of chains is no multiple of eight, the last ones go unused.
pub(crate) fn starts_with(
    i: &[u8; 16],
    q: u32,
    seed: &[u8; 32],
    chain: u16,
    before: [[u8; 32]; 8],
) -> [[u8; 32]; 8]
    requires { chain + 8 ≤ 65536 }
    ensures { (0 < chain % 8 → ArePieces (λ c. private_element i.now q c seed.now) (chain / 8 * 8) before)
        → ArePieces (λ c. private_element i.now q c seed.now) (chain / 8 * 8) result }
{
    if chain % 8 == 0 {
        starts_of_chains(i, q, chain, seed)
    } else {
        before
    }
}
