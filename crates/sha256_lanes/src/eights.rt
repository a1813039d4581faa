//! The digests of eight texts at once, each of its own length.

ghost use Rattle.std.specs.Prelude.{◌≡◌, ◌≢◌, ℕ, ◌+◌, ◌<◌, ◌≤◌, List, [], ◌++◌, length, map, slice_index};
ghost use Rattle.std.specs.Prelude.{slice_index_or};
ghost use Rattle.sha2.specs.Sha256.{compress, digest_bytes, sha256, word_at};
ghost use Rattle.sha256_lanes.specs.Lanes.{AreLanes, AreLong, IsLanes, lane};
ghost use Rattle.sha256_lanes.specs.Rounds.{HasWords};
ghost use Rattle.sha256_lanes.specs.Texts.{block_of, blocks_of, joined};

use crate::chains::bytes_in;
use crate::message::load;
use crate::rounds::{compress_rows, initial};
use crate::texts::{block_at, block_count};
use std::simd::u32x8;

#[inline(always)]
fn text_at<'a>(texts: &[&'a [u8]; 8], lane: usize) -> &'a [u8]
    requires { lane < 8 }
    ensures { result.now ≡ slice_index_or (map (λ text. text.now) texts.now) lane [] }
{
    texts[lane]
}

#[inline(always)]
fn load_block(block: &[u8; 64], at: usize) -> u32
    requires { at + 4 ≤ 64 }
    ensures { result ≡ word_at block.now at }
{
    load(block, at)
}

// The word at place `at` of each block.
#[inline(always)]
fn block_word(blocks: &[[u8; 64]; 8], at: usize) -> u32x8
    requires { at + 4 ≤ 64 }
    ensures { IsLanes 8 result (λ i. word_at (slice_index_or blocks.now i []) at) }
{
    let mut words = [0u32; 8];
    'lanes: for lane in 0..8 {
        words[lane] = load_block(&blocks[lane], at);
    }
    u32x8::from_array(words)
}

#[inline(always)]
fn words_in(blocks: &[[u8; 64]; 8]) -> [u32x8; 16]
    ensures { HasWords 16 (λ i. slice_index_or blocks.now i []) result }
{
    [
        block_word(blocks, 0),
        block_word(blocks, 4),
        block_word(blocks, 8),
        block_word(blocks, 12),
        block_word(blocks, 16),
        block_word(blocks, 20),
        block_word(blocks, 24),
        block_word(blocks, 28),
        block_word(blocks, 32),
        block_word(blocks, 36),
        block_word(blocks, 40),
        block_word(blocks, 44),
        block_word(blocks, 48),
        block_word(blocks, 52),
        block_word(blocks, 56),
        block_word(blocks, 60),
    ]
}

// Block k of each text. Where a text has no such block, any bytes.
#[inline(always)]
fn blocks_at(heads: &[&[u8]; 8], bodies: &[&[u8]; 8], k: usize) -> [[u8; 64]; 8]
    requires { (i : ℕ) → i < 8 → length (slice_index_or (map (λ text. text.now) heads.now) i []) ≤ 64 }
    ensures { (i : ℕ) → i < 8 → k < blocks_of (joined (map (λ text. text.now) heads.now) (map (λ text. text.now) bodies.now) i)
        → slice_index_or result i [] ≡ block_of (joined (map (λ text. text.now) heads.now) (map (λ text. text.now) bodies.now) i) k }
{
    let mut blocks = [[0u8; 64]; 8];
    'lanes: for lane in 0..8 {
        blocks[lane] = block_at(text_at(heads, lane), text_at(bodies, lane), k);
    }
    blocks
}

// The most blocks of a text.
fn most_blocks(heads: &[&[u8]; 8], bodies: &[&[u8]; 8]) -> usize
    requires { (i : ℕ) → i < 8 → length (slice_index_or (map (λ text. text.now) heads.now) i []) ≤ 64 }
    ensures { (i : ℕ) → i < 8 → blocks_of (joined (map (λ text. text.now) heads.now) (map (λ text. text.now) bodies.now) i) ≤ result }
{
    let mut most = 0usize;
    'lanes: for lane in 0..8 {
        most = most.max(block_count(text_at(heads, lane), text_at(bodies, lane)));
    }
    most
}

// A text's digest once its last block is in, and before that what was there.
#[inline(always)]
fn kept(
    state: &[u32x8; 8],
    place: usize,
    head: &[u8],
    body: &[u8],
    count: usize,
    before: [u8; 32],
) -> [u8; 32]
    requires place { place < 8 }
    requires head { length head.now ≤ 64 }
    ensures ends { blocks_of (head.now ++ body.now) ≡ count → result ≡ digest_bytes (lane state.now place) 8 }
    ensures stays { blocks_of (head.now ++ body.now) ≢ count → result ≡ before }
{
    if block_count(head, body) == count {
        bytes_in(state, place)
    } else {
        before
    }
}

// The digests of the texts that end at this count of blocks, and else what was there.
#[inline(always)]
fn digests_at(
    state: &[u32x8; 8],
    heads: &[&[u8]; 8],
    bodies: &[&[u8]; 8],
    count: usize,
    before: [[u8; 32]; 8],
) -> [[u8; 32]; 8]
    requires { (i : ℕ) → i < 8 → length (slice_index_or (map (λ text. text.now) heads.now) i []) ≤ 64 }
    ensures ends { (i : ℕ) → i < 8 → blocks_of (joined (map (λ text. text.now) heads.now) (map (λ text. text.now) bodies.now) i) ≡ count
        → slice_index_or result i [] ≡ digest_bytes (lane state.now i) 8 }
    ensures stays { (i : ℕ) → i < 8 → blocks_of (joined (map (λ text. text.now) heads.now) (map (λ text. text.now) bodies.now) i) ≢ count
        → slice_index_or result i [] ≡ slice_index_or before i [] }
{
    let mut digests = [[0u8; 32]; 8];
    'lanes: for lane in 0..8 {
        digests[lane] = kept(
            state,
            lane,
            text_at(heads, lane),
            text_at(bodies, lane),
            count,
            before[lane],
        );
    }
    digests
}

// The hash values after a block more of each lane.
#[inline(always)]
fn absorbed(state: [u32x8; 8], blocks: &[[u8; 64]; 8], room: &mut [u32x8; 64]) -> [u32x8; 8]
    ensures { AreLong 8 state → AreLanes 8 result (λ i. compress (lane state i) (slice_index_or blocks.now i [])) }
{
    compress_rows(state, words_in(blocks), room)
}

/// The SHA-256 of eight texts, of any length each. It takes as long as the longest of the eight.
pub fn digest_eight(heads: &[&[u8]; 8], bodies: &[&[u8]; 8]) -> [[u8; 32]; 8]
    requires { (i : ℕ) → i < 8 → length (slice_index_or (map (λ text. text.now) heads.now) i []) ≤ 64 }
    ensures { (i : ℕ) → i < 8
        → slice_index_or result i [] ≡ sha256 (joined (map (λ text. text.now) heads.now) (map (λ text. text.now) bodies.now) i) }
{
    let most = most_blocks(heads, bodies);
    let mut state = initial();
    let mut digests = [[0u8; 32]; 8];
    let mut room = [u32x8::splat(0); 64];
    'steps: for k in 0..most {
        let blocks = blocks_at(heads, bodies, k);
        let next = absorbed(state, &blocks, &mut room);
        let after = digests_at(&next, heads, bodies, k + 1, digests);
        state = next;
        digests = after;
    }
    digests
}
