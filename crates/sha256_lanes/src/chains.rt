//! Steps of eight chains at once: bytes in, bytes out.

ghost use Rattle.std.specs.Prelude.{◌≡◌, ℕ, ◌-◌, ◌<◌, ◌≤◌, List, [], length, slice_index, slice_index_or};
ghost use Rattle.sha2.specs.Sha256.{compress, digest_bytes, initial_hash_256, padded_message, sha256};
ghost use Rattle.sha256_lanes.specs.Lanes.{AreLanes, AreLong, lane};
ghost use Rattle.sha256_lanes.specs.Rounds.{IsMiddle};
ghost use Rattle.sha256_lanes.specs.Chain.{message, walked};
ghost use Rattle.sha256_lanes.specs.Message.{AreSteps, HasHeads, Spell};

use crate::message::{block_words, head_end, head_word, value_word};
use crate::rounds::{compress_from, first_five};
use std::simd::u32x8;

pub(crate) fn head_words(heads: &[[u8; 22]; 8]) -> [u32x8; 6]
    ensures { HasHeads (λ i. slice_index_or heads.now i []) result }
{
    [
        head_word(heads, 0),
        head_word(heads, 4),
        head_word(heads, 8),
        head_word(heads, 12),
        head_word(heads, 16),
        head_end(heads),
    ]
}

pub(crate) fn value_words(values: &[[u8; 32]; 8]) -> [u32x8; 8]
    ensures { Spell result values.now }
{
    [
        value_word(values, 0),
        value_word(values, 4),
        value_word(values, 8),
        value_word(values, 12),
        value_word(values, 16),
        value_word(values, 20),
        value_word(values, 24),
        value_word(values, 28),
    ]
}

fn lane_in(word: u32x8, place: usize) -> u32
    requires { place < 8 }
    ensures { result ≡ slice_index word place }
{
    word[place]
}

// The bytes that one lane of a row of words spells.
pub(crate) fn bytes_in(state: &[u32x8; 8], place: usize) -> [u8; 32]
    requires { place < 8 }
    ensures { result ≡ digest_bytes (lane state.now place) 8 }
{
    let mut bytes = [0u8; 32];
    'words: for word in 0..8 {
        bytes[4 * word..4 * word + 4].copy_from_slice(&lane_in(state[word], place).to_be_bytes());
    }
    bytes
}

pub(crate) fn bytes_of(state: &[u32x8; 8]) -> [[u8; 32]; 8]
    ensures { (i : ℕ) → i < 8 → slice_index_or result i [] ≡ digest_bytes (lane state.now i) 8 }
{
    let mut values = [[0u8; 32]; 8];
    'lanes: for lane in 0..8 {
        values[lane] = bytes_in(state, lane);
    }
    values
}

// The words of the values after the steps of these numbers, from those before them.
#[inline(always)]
pub(crate) fn stepped(
    words: &[u32x8; 6],
    middle: &[u32x8; 8],
    steps: u32x8,
    state: [u32x8; 8],
    room: &mut [u32x8; 64],
) -> [u32x8; 8]
    ensures { (heads : ℕ → List ℕ) (number : ℕ → ℕ) → HasHeads heads words.now → AreSteps number steps
        → IsMiddle words.now middle.now
        → AreLong 8 state → AreLanes 8 result (λ i.
        compress initial_hash_256 (padded_message (message (heads i) (number i) (digest_bytes (lane state i) 8)))) }
{
    compress_from(middle, block_words(words, steps, &state), room)
}

/// The SHA-256 of eight messages, each a head, the step's number and a value.
pub fn step(heads: &[[u8; 22]; 8], number: u8, values: &[[u8; 32]; 8]) -> [[u8; 32]; 8]
    ensures { (i : ℕ) → i < 8 → slice_index_or result i []
        ≡ sha256 (message (slice_index_or heads.now i []) number (slice_index_or values.now i [])) }
{
    let words = head_words(heads);
    let middle = first_five(&words);
    let mut room = [u32x8::splat(0); 64];
    bytes_of(&stepped(
        &words,
        &middle,
        u32x8::splat(number as u32),
        value_words(values),
        &mut room,
    ))
}

/// The values of eight chains after their steps `from` to `to` - 1, each step a SHA-256 of the
/// chain's head, the step's number and the value before it.
pub fn walk(heads: &[[u8; 22]; 8], from: u8, to: u8, values: &[[u8; 32]; 8]) -> [[u8; 32]; 8]
    requires { from ≤ to }
    ensures { (i : ℕ) → i < 8 → slice_index_or result i []
        ≡ walked (slice_index_or heads.now i []) from (to - from) (slice_index_or values.now i []) }
{
    let words = head_words(heads);
    let middle = first_five(&words);
    let mut state = value_words(values);
    let mut room = [u32x8::splat(0); 64];
    'steps: for step in from..to {
        let next = stepped(&words, &middle, u32x8::splat(step as u32), state, &mut room);
        state = next;
    }
    bytes_of(&state)
}
