//! Whether bytes have bits, and bits that others lack. Vectors tell it of 64 bytes in a small part of the time
//! that single bytes take, of which no back end makes vectors.
ghost use Rattle.std.specs.Prelude.{◌↔◌, ◌+◌, ◌≤◌, length, IsTrue};
ghost use Rattle.bt_engine_state.specs.ComparisonSteps.{AddsNothing, HasNoBit};

use std::simd::u8x64;

/// How many bytes are looked at at a time.
pub(crate) const PART_LEN: usize = 64;

/// Whether 64 bytes from a place on have no bit that the other ones lack.
#[inline(always)]
pub(crate) fn adds_nothing(own: &[u8], other: &[u8], at: usize) -> bool
    requires own { at + PART_LEN ≤ length own.now }
    requires other { at + PART_LEN ≤ length other.now }
    ensures { IsTrue result ↔ AddsNothing at PART_LEN own.now other.now }
{
    let part = u8x64::from_slice(&own[at..]);
    let both = part & u8x64::from_slice(&other[at..]);
    both.simd_ne(part).to_bitmask() == 0
}

/// Whether 64 bytes from a place on have no bit.
#[inline(always)]
pub(crate) fn has_no_bit(bytes: &[u8], at: usize) -> bool
    requires { at + PART_LEN ≤ length bytes.now }
    ensures { IsTrue result ↔ HasNoBit at PART_LEN bytes.now }
{
    let part = u8x64::from_slice(&bytes[at..]);
    part.simd_ne(u8x64::splat(0)).to_bitmask() == 0
}
