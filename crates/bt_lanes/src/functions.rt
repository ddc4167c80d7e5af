//! The functions of SHA-256 (FIPS 180-4, 4.1.2), on a word of each of eight messages.
#![tactic(auto, using(crate::proofs::VectorLanes::lanes))]

ghost use Rattle.std.specs.Prelude.{◌≡◌, ℕ, ◌<◌, slice_index};
ghost use Rattle.std.specs.Int.{w32, rotate_right};
ghost use Rattle.sha2.specs.Sha256.{add32, ch, maj, big_sigma0, big_sigma1, small_sigma0, small_sigma1};

use std::simd::u32x8;

/// The sum modulo 2^32 (3.2).
#[inline(always)]
pub(crate) fn add(x: u32x8, y: u32x8) -> u32x8
    ensures { (j : ℕ) → j < 8 → slice_index result j ≡ add32 (slice_index x j) (slice_index y j) }
{
    x + y
}

/// For each bit, that of `y` where `x` has 1, else that of `z`.
#[inline(always)]
pub(crate) fn ch(x: u32x8, y: u32x8, z: u32x8) -> u32x8
    ensures { (j : ℕ) → j < 8
        → slice_index result j ≡ ch (slice_index x j) (slice_index y j) (slice_index z j) }
{
    (x & y) ^ (!x & z)
}

/// For each bit, the value that at least two of the three have.
#[inline(always)]
pub(crate) fn maj(x: u32x8, y: u32x8, z: u32x8) -> u32x8
    ensures { (j : ℕ) → j < 8
        → slice_index result j ≡ maj (slice_index x j) (slice_index y j) (slice_index z j) }
{
    (x & y) ^ (x & z) ^ (y & z)
}

/// Each word with its bits moved right by `count` places, those that fall out coming in at the left.
#[inline(always)]
fn rotate_right(x: u32x8, count: u32) -> u32x8
    requires { (0 < count) × (count < 32) }
    ensures { (j : ℕ) → j < 8 → slice_index result j ≡ rotate_right w32 (slice_index x j) count }
{
    (x >> u32x8::splat(count)) | (x << u32x8::splat(32 - count))
}

/// The upper case sigma 0.
#[inline(always)]
pub(crate) fn big_sigma0(x: u32x8) -> u32x8
    ensures { (j : ℕ) → j < 8 → slice_index result j ≡ big_sigma0 (slice_index x j) }
{
    rotate_right(x, 2) ^ rotate_right(x, 13) ^ rotate_right(x, 22)
}

/// The upper case sigma 1.
#[inline(always)]
pub(crate) fn big_sigma1(x: u32x8) -> u32x8
    ensures { (j : ℕ) → j < 8 → slice_index result j ≡ big_sigma1 (slice_index x j) }
{
    rotate_right(x, 6) ^ rotate_right(x, 11) ^ rotate_right(x, 25)
}

/// The lower case sigma 0.
#[inline(always)]
pub(crate) fn small_sigma0(x: u32x8) -> u32x8
    ensures { (j : ℕ) → j < 8 → slice_index result j ≡ small_sigma0 (slice_index x j) }
{
    rotate_right(x, 7) ^ rotate_right(x, 18) ^ (x >> u32x8::splat(3))
}

/// The lower case sigma 1.
#[inline(always)]
pub(crate) fn small_sigma1(x: u32x8) -> u32x8
    ensures { (j : ℕ) → j < 8 → slice_index result j ≡ small_sigma1 (slice_index x j) }
{
    rotate_right(x, 17) ^ rotate_right(x, 19) ^ (x >> u32x8::splat(10))
}
