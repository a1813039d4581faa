//! The blocks of eight steps at once, and the words that bytes spell.

ghost use Rattle.std.specs.Prelude.{◌≡◌, ℕ, ◌+◌, ◌*◌, ◌/◌, ◌%◌, ◌^◌, ◌<◌};
ghost use Rattle.std.specs.Prelude.{◌≤◌, List, [], ◌∷◌, ◌++◌, length, take, drop};
ghost use Rattle.std.specs.Prelude.{slice_index, slice_index_or};
ghost use Rattle.std.specs.Int.{w32, to_be_bytes};
ghost use Rattle.sha2.specs.Sha256.{digest_bytes, padded_message, word_at};
ghost use Rattle.sha256_lanes.specs.Lanes.{AreLong, IsLanes, lane};
ghost use Rattle.sha256_lanes.specs.Rounds.{HasWords};
ghost use Rattle.sha256_lanes.specs.Chain.{message};
ghost use Rattle.sha256_lanes.specs.Message.{AreSteps, HasHeads, SpellsAt, end_of, straddling};

use std::simd::u32x8;

// The bits of the 55 bytes of a message, which its padding ends with.
const BITS: u32 = 440;

// What the padding begins with, as the high byte of a word.
const PADDING: u32 = 0x8000_0000;

// The number that four bytes spell, the high one first.
#[inline(always)]
pub(crate) fn load(bytes: &[u8], at: usize) -> u32
    requires { at + 4 ≤ length bytes.now }
    ensures word { result ≡ word_at bytes.now at }
    ensures bytes { to_be_bytes w32 result ≡ take 4 (drop at bytes.now) }
{
    u32::from_be_bytes([bytes[at], bytes[at + 1], bytes[at + 2], bytes[at + 3]])
}

// The word at place `at` of each head.
#[inline(always)]
pub(crate) fn head_word(heads: &[[u8; 22]; 8], at: usize) -> u32x8
    requires { at + 4 ≤ 22 }
    ensures { IsLanes 8 result (λ i. word_at (slice_index_or heads.now i []) at) }
{
    let mut words = [0u32; 8];
    'lanes: for lane in 0..8 {
        words[lane] = load(&heads[lane], at);
    }
    u32x8::from_array(words)
}

// The last two bytes of a head, above two bytes of 0.
#[inline(always)]
fn end_word(head: &[u8; 22]) -> u32
    ensures long { length head.now ≡ 22 }
    ensures word { result ≡ end_of head.now * 65536 }
{
    u32::from_be_bytes([head[20], head[21], 0, 0])
}

#[inline(always)]
pub(crate) fn head_end(heads: &[[u8; 22]; 8]) -> u32x8
    ensures long { (i : ℕ) → i < 8 → length (slice_index_or heads.now i []) ≡ 22 }
    ensures words { IsLanes 8 result (λ i. end_of (slice_index_or heads.now i []) * 65536) }
{
    let mut words = [0u32; 8];
    'lanes: for lane in 0..8 {
        words[lane] = end_word(&heads[lane]);
    }
    u32x8::from_array(words)
}

#[inline(always)]
fn load_value(value: &[u8; 32], at: usize) -> u32
    requires { at + 4 ≤ 32 }
    ensures long { length value.now ≡ 32 }
    ensures bytes { to_be_bytes w32 result ≡ take 4 (drop at value.now) }
{
    load(value, at)
}

// The word at place `at` of each value.
#[inline(always)]
pub(crate) fn value_word(values: &[[u8; 32]; 8], at: usize) -> u32x8
    requires { at + 4 ≤ 32 }
    ensures { SpellsAt at values.now result }
{
    let mut words = [0u32; 8];
    'lanes: for lane in 0..8 {
        words[lane] = load_value(&values[lane], at);
    }
    u32x8::from_array(words)
}

// The word of the three low bytes of one word and the high byte of the next.
#[inline(always)]
fn straddle(x: u32x8, y: u32x8) -> u32x8
    ensures { IsLanes 8 result (λ i. straddling (slice_index x i) (slice_index y i)) }
{
    (x << u32x8::splat(8)) + (y >> u32x8::splat(24))
}

// The word of a head's last two bytes, a step's number and the first byte of a value.
#[inline(always)]
fn step_word(ends: u32x8, steps: u32x8, first: u32x8) -> u32x8
    ensures { (end number : ℕ → ℕ) → IsLanes 8 ends (λ i. end i * 65536) → AreSteps number steps
        → IsLanes 8 result (λ i. end i * 65536 + number i * 256 + slice_index first i / 2 ^ 24 % 256) }
{
    ends + (steps << u32x8::splat(8)) + (first >> u32x8::splat(24))
}

// The blocks of the steps of these numbers, from the heads' words and the words of the values before them.
#[inline(always)]
pub(crate) fn block_words(words: &[u32x8; 6], steps: u32x8, state: &[u32x8; 8]) -> [u32x8; 16]
    ensures { (heads : ℕ → List ℕ) (number : ℕ → ℕ) → HasHeads heads words.now → AreSteps number steps
        → AreLong 8 state.now
        → HasWords 16 (λ i. padded_message (message (heads i) (number i) (digest_bytes (lane state.now i) 8))) result }
{
    [
        words[0],
        words[1],
        words[2],
        words[3],
        words[4],
        step_word(words[5], steps, state[0]),
        straddle(state[0], state[1]),
        straddle(state[1], state[2]),
        straddle(state[2], state[3]),
        straddle(state[3], state[4]),
        straddle(state[4], state[5]),
        straddle(state[5], state[6]),
        straddle(state[6], state[7]),
        straddle(state[7], u32x8::splat(PADDING)),
        u32x8::splat(0),
        u32x8::splat(BITS),
    ]
}
