//! The digests of eight messages of one length (FIPS 180-4, 6.2).

ghost use Rattle.std.specs.Prelude.{◌≡◌, ℕ, ◌<◌, [], length, slice_index_or};
ghost use Rattle.sha2.specs.Sha256.{digest_bytes, initial_hash_256, sha256};
ghost use Rattle.bt_lanes.specs.LaneSteps.{lane_of_eight, message_at};

use crate::compression::HashValues;
use crate::message_blocks::absorb;
use crate::padding::{tail, tail_block_count, tails};
use bt_tree::Hash32;
use std::simd::u32x8;

/// The initial hash value (FIPS 180-4, 5.3.3) of each message.
fn initial_values() -> HashValues
    ensures { (j : ℕ) → j < 8 → lane_of_eight j result ≡ initial_hash_256 }
{
    [
        u32x8::splat(0x6a09_e667),
        u32x8::splat(0xbb67_ae85),
        u32x8::splat(0x3c6e_f372),
        u32x8::splat(0xa54f_f53a),
        u32x8::splat(0x510e_527f),
        u32x8::splat(0x9b05_688c),
        u32x8::splat(0x1f83_d9ab),
        u32x8::splat(0x5be0_cd19),
    ]
}

/// The words in a lane, as bytes.
fn digest(words: &[[u32; 8]; 8], lane: usize) -> Hash32
    requires { lane < 8 }
    ensures { result ≡ digest_bytes (lane_of_eight lane words.now) 8 }
{
    let mut digest = [0; 32];
    'words: for i in 0..8 {
        digest[4 * i..4 * i + 4].copy_from_slice(&words[i][lane].to_be_bytes());
    }
    digest
}

/// Each hash value, as bytes.
fn digests(values: HashValues) -> [Hash32; 8]
    ensures { (j : ℕ) → j < 8 → slice_index_or result j [] ≡ digest_bytes
        (lane_of_eight j values) 8 }
{
    let words = [
        values[0].to_array(),
        values[1].to_array(),
        values[2].to_array(),
        values[3].to_array(),
        values[4].to_array(),
        values[5].to_array(),
        values[6].to_array(),
        values[7].to_array(),
    ];
    [
        digest(&words, 0),
        digest(&words, 1),
        digest(&words, 2),
        digest(&words, 3),
        digest(&words, 4),
        digest(&words, 5),
        digest(&words, 6),
        digest(&words, 7),
    ]
}

/// The arrays, as slices.
#[inline(always)]
pub(crate) fn slices<const N: usize>(arrays: &[[u8; N]; 8]) -> [&[u8]; 8]
    ensures bytes { (j : ℕ) → j < 8 → message_at result j ≡ slice_index_or arrays.now j [] }
    ensures lengths { (j : ℕ) → j < 8 → length (message_at result j) ≡ N }
{
    [
        &arrays[0][..],
        &arrays[1][..],
        &arrays[2][..],
        &arrays[3][..],
        &arrays[4][..],
        &arrays[5][..],
        &arrays[6][..],
        &arrays[7][..],
    ]
}

/// The digests of eight messages of one length.
pub(crate) fn digest_eight(messages: &[&[u8]; 8], len: usize) -> [Hash32; 8]
    requires { (j : ℕ) → j < 8 → length (message_at messages.now j) ≡ len }
    ensures { (j : ℕ) → j < 8 → slice_index_or result j [] ≡ sha256 (message_at messages.now j) }
{
    let whole = absorb(initial_values(), messages, len / 64);
    if len % 64 == 0 {
        // The padding is a message block of its own, the same for each message.
        let tail = tail(messages[0]);
        return digests(absorb(whole, &[&tail[..]; 8], 1));
    }
    let tails = tails(messages);
    digests(absorb(whole, &slices(&tails), tail_block_count(len)))
}
