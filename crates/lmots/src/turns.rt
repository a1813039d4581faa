//! Walks the chains of a leaf eight at a time: a lane whose chain is at its end takes the next one. What comes out
//! rests on no order and on no length of a turn: good ones only leave few lanes idle.

ghost use Rattle.std.specs.Prelude.{◌≡◌, ℕ, ◌-◌, ◌<◌, ◌≤◌, List, [], slice_index, slice_index_or};
ghost use Rattle.lmots.specs.OtsType.{chain_count};
ghost use Rattle.lmots.specs.Chain.{head, steps};
ghost use Rattle.lmots.specs.OnWay.{AreOnWay, ArePlaces, IsTable};

use crate::hashes::head;
use crate::on_way::{Chains, advance, steps_left};
use crate::ots_type::OtsType;
use sha256_lanes::walk_between;

fn heads_of(i: &[u8; 16], q: u32, lanes: &[u16; 8]) -> [[u8; 22]; 8]
    ensures { (k : ℕ) → k < 8 → slice_index_or result k [] ≡ head i.now q (slice_index lanes.now k) }
{
    let mut heads = [[0u8; 22]; 8];
    'lanes: for lane in 0..8 {
        heads[lane] = head(i, q, lanes[lane]);
    }
    heads
}

fn numbers_at(numbers: &[u8; 265], lanes: &[u16; 8]) -> [u8; 8]
    requires { (k : ℕ) → k < 8 → slice_index lanes.now k < 265 }
    ensures { (k : ℕ) → k < 8 → slice_index result k ≡ slice_index numbers.now (slice_index lanes.now k) }
{
    let mut found = [0u8; 8];
    'lanes: for lane in 0..8 {
        found[lane] = numbers[lanes[lane] as usize];
    }
    found
}

fn values_at(values: &[[u8; 32]; 265], lanes: &[u16; 8]) -> [[u8; 32]; 8]
    requires { (k : ℕ) → k < 8 → slice_index lanes.now k < 265 }
    ensures { (k : ℕ) → k < 8 → slice_index_or result k [] ≡ slice_index_or values.now (slice_index lanes.now k) [] }
{
    let mut found = [[0u8; 32]; 8];
    'lanes: for lane in 0..8 {
        found[lane] = values[lanes[lane] as usize];
    }
    found
}

fn place_after(at: u8, to: u8, turn: u8) -> u8
    requires { at ≤ to }
    ensures low { at ≤ result }
    ensures high { result ≤ to }
{
    at.saturating_add(turn).min(to)
}

// Where eight chains stand after so many steps more, or at their ends.
fn places_after(chains: &Chains, lanes: &[u16; 8], turn: u8) -> [u8; 8]
    requires table { IsTable chains.now.at chains.now.to chains.now.values }
    requires inside { (k : ℕ) → k < 8 → slice_index lanes.now k < 265 }
    ensures { ArePlaces chains.now.at chains.now.to lanes.now result }
{
    let mut places = [0u8; 8];
    'lanes: for lane in 0..8 {
        let chain = lanes[lane] as usize;
        places[lane] = place_after(chains.at[chain], chains.to[chain], turn);
    }
    places
}

// The values of eight chains at these places.
fn values_after(
    i: &[u8; 16],
    q: u32,
    chains: &Chains,
    lanes: &[u16; 8],
    places: &[u8; 8],
) -> [[u8; 32]; 8]
    requires inside { (k : ℕ) → k < 8 → slice_index lanes.now k < 265 }
    requires places { ArePlaces chains.now.at chains.now.to lanes.now places.now }
    ensures { (n : ℕ) (z : ℕ → List ℕ) → ((k : ℕ) → k < 8 → slice_index lanes.now k < n)
        → AreOnWay i.now q n z chains.now.at chains.now.to chains.now.values
        → (k : ℕ) → k < 8 → steps i.now q (slice_index lanes.now k) (slice_index places.now k)
        (slice_index chains.now.to (slice_index lanes.now k) - slice_index places.now k) (slice_index_or result k [])
        ≡ z (slice_index lanes.now k) }
{
    let heads = heads_of(i, q, lanes);
    let from = numbers_at(&chains.at, lanes);
    let values = values_at(&chains.values, lanes);
    walk_between(&heads, &from, places, &values)
}

// Walks eight chains so many steps further, or to their ends.
fn walk_lanes(i: &[u8; 16], q: u32, chains: &mut Chains, lanes: &[u16; 8], turn: u8)
    requires table { IsTable chains.old.at chains.old.to chains.old.values }
    requires inside { (k : ℕ) → k < 8 → slice_index lanes.now k < 265 }
    ensures table { IsTable chains.new.at chains.new.to chains.new.values }
    ensures goes { (n : ℕ) (z : ℕ → List ℕ) → ((k : ℕ) → k < 8 → slice_index lanes.now k < n)
        → AreOnWay i.now q n z chains.old.at chains.old.to chains.old.values
        → AreOnWay i.now q n z chains.new.at chains.new.to chains.new.values }
{
    let places = places_after(chains, lanes, turn);
    let values = values_after(i, q, chains, lanes, &places);
    'lanes: for lane in 0..8 {
        advance(chains, lanes[lane] as usize, places[lane], values[lane]);
    }
}

fn place_at(places: &[u16; 257], at: usize) -> usize
    requires { at < 257 }
    ensures { result < 272 }
{
    places[at] as usize % 272
}

// The first chains, those with the most steps left before those with fewer.
fn longest_first(chains: &Chains, count: u16) -> [u16; 272]
    requires { count ≤ 265 }
{
    let mut places = [0u16; 257];
    'counted: for chain in 0..count {
        let at = 256 - steps_left(chains, chain) as usize;
        places[at] = places[at].wrapping_add(1);
    }
    let mut sum = 0u16;
    'summed: for at in 0..257 {
        sum = sum.wrapping_add(places[at]);
        places[at] = sum;
    }
    let mut order = [0u16; 272];
    'placed: for chain in 0..count {
        let at = 255 - steps_left(chains, chain) as usize;
        let place = place_at(&places, at);
        order[place] = chain;
        places[at] = places[at].wrapping_add(1);
    }
    order
}

// The first eight chains of an order.
fn first_lanes(order: &[u16; 272], count: u16) -> [u16; 8]
    requires { 0 < count }
    ensures { (k : ℕ) → k < 8 → slice_index result k < count }
{
    let mut lanes = [0u16; 8];
    'lanes: for lane in 0..8 {
        lanes[lane] = order[lane] % count;
    }
    lanes
}

// The fewest steps that a chain in a lane has left, of those that are not at their ends.
fn fewest_left(chains: &Chains, lanes: &[u16; 8]) -> u8
    requires { (k : ℕ) → k < 8 → slice_index lanes.now k < 265 }
{
    let mut fewest = 0u8;
    'lanes: for lane in 0..8 {
        let left = steps_left(chains, lanes[lane]);
        if left > 0 && (fewest == 0 || left < fewest) {
            fewest = left;
        }
    }
    fewest
}

// Puts the next chains of an order in the place of those that are at their ends.
fn refill(chains: &Chains, order: &[u16; 272], count: u16, lanes: &mut [u16; 8], next: u16) -> u16
    requires some { 0 < count }
    requires few { count ≤ 265 }
    requires lanes { (k : ℕ) → k < 8 → slice_index lanes.old k < count }
    ensures { (k : ℕ) → k < 8 → slice_index lanes.new k < count }
{
    let mut next = next;
    'lanes: for lane in 0..8 {
        if next < count && steps_left(chains, lanes[lane]) == 0 {
            lanes[lane] = order[next as usize] % count;
            next += 1;
        }
    }
    next
}

// Walks all chains of a type towards their ends.
pub(crate) fn walk_all(kind: OtsType, i: &[u8; 16], q: u32, chains: &mut Chains)
    requires table { IsTable chains.old.at chains.old.to chains.old.values }
    ensures table { IsTable chains.new.at chains.new.to chains.new.values }
    ensures goes { (z : ℕ → List ℕ) → AreOnWay i.now q (chain_count kind) z chains.old.at chains.old.to
        chains.old.values
        → AreOnWay i.now q (chain_count kind) z chains.new.at chains.new.to chains.new.values }
{
    let count = kind.chain_count();
    let order = longest_first(chains, count);
    let mut lanes = first_lanes(&order, count);
    let mut next = 8u16;
    'turns: for _turn in 0..count {
        let turn = fewest_left(chains, &lanes);
        if turn == 0 {
            break;
        }
        walk_lanes(i, q, chains, &lanes, turn);
        next = refill(chains, &order, count, &mut lanes, next);
    }
}
