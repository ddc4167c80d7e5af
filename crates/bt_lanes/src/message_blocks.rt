//! The message blocks of eight messages (FIPS 180-4, 5.2.1 and 6.2.2), 64 bytes each.

ghost use Rattle.std.specs.Prelude.{◌≡◌, ℕ, ◌+◌, ◌*◌, ◌/◌, ◌%◌, ◌^◌, ◌<◌, ◌≤◌, length, take, drop, slice_index, [], ◌∷◌};
ghost use Rattle.sha2.specs.Sha256.{hash_after, word_at};
ghost use Rattle.bt_lanes.specs.LaneSteps.{lane_word, lane_of, lane_of_eight, message_at, IsBlockWords};

use crate::compression::{HashValues, MessageBlocks, compress};
use std::simd::{u8x32, u32x8};

/// Where each byte of four words lies in 16 bytes that spell them, the most significant byte of each word
/// first. A vector's words have the least significant first.
const BYTE_ORDER: [u8; 32] = [
    3, 2, 1, 0, 7, 6, 5, 4, 11, 10, 9, 8, 15, 14, 13, 12, //
    3, 2, 1, 0, 7, 6, 5, 4, 11, 10, 9, 8, 15, 14, 13, 12,
];

/// Eight words of a message, from a byte on.
#[inline(always)]
fn row_at(message: &[u8], at: usize) -> u32x8
    requires { at + 32 ≤ length message.now }
    ensures { (i : ℕ) → i < 8 → slice_index result i ≡ word_at message.now (at + 4 * i) }
{
    let bytes = u8x32::from_slice(&message[at..at + 32]);
    u32x8::from_le_bytes(bytes.swizzle_dyn_within::<16>(u8x32::from_array(BYTE_ORDER)))
}

/// The words of both vectors in turns: those of the lower lanes, and those of the upper lanes.
#[inline(always)]
fn take_turns(a: u32x8, b: u32x8) -> (u32x8, u32x8)
    ensures lower { (j : ℕ) → j < 8 → slice_index result.0 j ≡ lane_word (a ∷ b ∷ [])
        (j % 2) (j / 2) }
    ensures upper { (j : ℕ) → j < 8 → slice_index result.1 j ≡ lane_word (a ∷ b ∷ []) (j % 2)
        (4 + j / 2) }
{
    a.interleave(b)
}

/// The words of eight vectors, each moved to another place. A place is a number of six bits, the vector's three and
/// the lane's three; the word there comes from the place whose bits are these, moved round to the right by one.
#[inline(always)]
fn shuffle(vectors: [u32x8; 8]) -> [u32x8; 8]
    ensures { (i j : ℕ) → i < 8 → j < 8
        → lane_word result i j ≡ lane_word vectors (i / 2 + 4 * (j % 2)) (4 * (i % 2) + j / 2) }
{
    let (a, b) = take_turns(vectors[0], vectors[4]);
    let (c, d) = take_turns(vectors[1], vectors[5]);
    let (e, f) = take_turns(vectors[2], vectors[6]);
    let (g, h) = take_turns(vectors[3], vectors[7]);
    [a, b, c, d, e, f, g, h]
}

/// The words in lane i of vector j, in lane j of vector i.
#[inline(always)]
fn transpose(rows: [u32x8; 8]) -> [u32x8; 8]
    ensures { (i j : ℕ) → i < 8 → j < 8 → lane_word result i j ≡ lane_word rows j i }
{
    shuffle(shuffle(shuffle(rows)))
}

/// Eight words of each message, from a byte on: vector i has the words i.
#[inline(always)]
fn words_at(messages: &[&[u8]; 8], at: usize) -> [u32x8; 8]
    requires { (j : ℕ) → j < 8 → at + 32 ≤ length (message_at messages.now j) }
    ensures { (i j : ℕ) → i < 8 → j < 8
        → lane_word result i j ≡ word_at (message_at messages.now j) (at + 4 * i) }
{
    transpose([
        row_at(messages[0], at),
        row_at(messages[1], at),
        row_at(messages[2], at),
        row_at(messages[3], at),
        row_at(messages[4], at),
        row_at(messages[5], at),
        row_at(messages[6], at),
        row_at(messages[7], at),
    ])
}

/// The block at a byte of each message.
#[inline(always)]
pub(crate) fn message_blocks_at(messages: &[&[u8]; 8], at: usize) -> MessageBlocks
    requires bounded { at + 64 < 2 ^ 64 }
    requires within { (j : ℕ) → j < 8 → at + 64 ≤ length (message_at messages.now j) }
    ensures { (j : ℕ) → j < 8
        → IsBlockWords (take 64 (drop at (message_at messages.now j))) (lane_of j result) }
{
    let [a, b, c, d, e, f, g, h] = words_at(messages, at);
    let [i, j, k, l, m, n, o, p] = words_at(messages, at + 32);
    [a, b, c, d, e, f, g, h, i, j, k, l, m, n, o, p]
}

/// The hash values after the first `count` blocks of each message.
#[inline(always)]
pub(crate) fn absorb(values: HashValues, messages: &[&[u8]; 8], count: usize) -> HashValues
    requires bounded { count * 64 < 2 ^ 64 }
    requires within { (j : ℕ) → j < 8 → count * 64 ≤ length (message_at messages.now j) }
    ensures { (j : ℕ) → j < 8
        → lane_of_eight j result ≡ hash_after (lane_of_eight j values)
        (message_at messages.now j) count }
{
    let mut values = values;
    'absorbed: for i in 0..count {
        let next = compress(values, &message_blocks_at(messages, 64 * i));
        values = next;
    }
    values
}
