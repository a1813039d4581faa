//! Walks of eight chains at once, each from its own step to its own.

ghost use Rattle.std.specs.Prelude.{◌≡◌, ℕ, ◌+◌, ◌-◌, ◌<◌, ◌≤◌, List, [], length, slice_index, slice_index_or};
ghost use Rattle.sha256_lanes.specs.Lanes.{AreLong};
ghost use Rattle.sha256_lanes.specs.Chain.{walked};
ghost use Rattle.sha256_lanes.specs.Message.{AreSteps};
ghost use Rattle.sha256_lanes.specs.Between.{AreAdvanced, AreChosen, IsChosen};

use crate::chains::{bytes_of, head_words, stepped, value_words};
use crate::rounds::first_five;
use std::simd::prelude::*;

fn number_at(numbers: &[u8; 8], lane: usize) -> u32
    requires { lane < 8 }
    ensures value { result ≡ slice_index numbers.now lane }
    ensures small { result < 256 }
{
    numbers[lane] as u32
}

fn numbers_of(numbers: &[u8; 8]) -> u32x8
    ensures { AreSteps (slice_index numbers.now) result }
{
    let mut words = [0u32; 8];
    'lanes: for lane in 0..8 {
        words[lane] = number_at(numbers, lane);
    }
    u32x8::from_array(words)
}

fn span(from: &[u8; 8], to: &[u8; 8], lane: usize) -> u8
    requires { lane < 8 }
    ensures { slice_index to.now lane ≤ slice_index from.now lane + result }
{
    to[lane].saturating_sub(from[lane])
}

// The most steps of a lane.
fn most_steps(from: &[u8; 8], to: &[u8; 8]) -> u8
    ensures { (i : ℕ) → i < 8 → slice_index to.now i ≤ slice_index from.now i + result }
{
    let mut most = 0u8;
    'lanes: for lane in 0..8 {
        most = most.max(span(from, to, lane));
    }
    most
}

// Each lane of x where its number is below its end, and else that of y.
#[inline(always)]
fn pick(numbers: u32x8, ends: u32x8, x: u32x8, y: u32x8) -> u32x8
    ensures { length numbers ≡ 8 → length ends ≡ 8 → length x ≡ 8 → length y ≡ 8 → IsChosen numbers ends x y result }
{
    numbers.simd_lt(ends).select(x, y)
}

#[inline(always)]
fn pick_row(numbers: u32x8, ends: u32x8, xs: [u32x8; 8], ys: [u32x8; 8]) -> [u32x8; 8]
    ensures { length numbers ≡ 8 → length ends ≡ 8 → AreLong 8 xs → AreLong 8 ys → AreChosen numbers ends xs ys result }
{
    [
        pick(numbers, ends, xs[0], ys[0]),
        pick(numbers, ends, xs[1], ys[1]),
        pick(numbers, ends, xs[2], ys[2]),
        pick(numbers, ends, xs[3], ys[3]),
        pick(numbers, ends, xs[4], ys[4]),
        pick(numbers, ends, xs[5], ys[5]),
        pick(numbers, ends, xs[6], ys[6]),
        pick(numbers, ends, xs[7], ys[7]),
    ]
}

#[inline(always)]
fn advanced(numbers: u32x8, ends: u32x8) -> u32x8
    ensures { AreSteps (slice_index numbers) numbers → AreSteps (slice_index ends) ends
        → AreAdvanced numbers ends result }
{
    pick(numbers, ends, numbers + u32x8::splat(1), numbers)
}

/// The values of eight chains, each after its own steps `from` to `to` - 1, as `walk` makes each. It takes
/// as long as the longest of the eight.
pub fn walk_between(
    heads: &[[u8; 22]; 8],
    from: &[u8; 8],
    to: &[u8; 8],
    values: &[[u8; 32]; 8],
) -> [[u8; 32]; 8]
    requires { (i : ℕ) → i < 8 → slice_index from.now i ≤ slice_index to.now i }
    ensures { (i : ℕ) → i < 8 → slice_index_or result i []
        ≡ walked (slice_index_or heads.now i []) (slice_index from.now i) (slice_index to.now i - slice_index from.now i)
        (slice_index_or values.now i []) }
{
    let words = head_words(heads);
    let middle = first_five(&words);
    let ends = numbers_of(to);
    let most = most_steps(from, to);
    let mut numbers = numbers_of(from);
    let mut state = value_words(values);
    let mut room = [u32x8::splat(0); 64];
    'steps: for step in 0..most {
        let made = stepped(&words, &middle, numbers, state, &mut room);
        let next = pick_row(numbers, ends, made, state);
        let after = advanced(numbers, ends);
        state = next;
        numbers = after;
    }
    bytes_of(&state)
}
