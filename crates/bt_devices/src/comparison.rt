//! Whether two blocks are the same.
ghost use Rattle.std.specs.Prelude.{◌≡◌, ◌↔◌, ◌+◌, ◌≤◌, length, IsTrue};
ghost use Rattle.bt_tree.specs.Limits.{full_block_length};
ghost use Rattle.bt_devices.specs.CacheSteps.{AreSameFrom};

use bt_tree::BLOCK_LEN;
use std::simd::u8x64;

/// How many bytes are compared at a time.
const PART_LEN: usize = 64;

/// Whether two whole blocks are the same. By vectors this takes a small part of the time of `==`, which goes
/// by single bytes where no back end makes vectors of them.
pub(crate) fn are_same(one: &[u8], other: &[u8]) -> bool
    requires one { length one.now ≡ full_block_length }
    requires other { length other.now ≡ full_block_length }
    ensures { IsTrue result ↔ (one.now ≡ other.now) }
{
    for part in 0..BLOCK_LEN / PART_LEN {
        if !are_same_from(one, other, part * PART_LEN) {
            return false;
        }
    }
    true
}

/// Whether 64 bytes from a place on are the same.
#[inline(always)]
fn are_same_from(one: &[u8], other: &[u8], at: usize) -> bool
    requires one { at + PART_LEN ≤ length one.now }
    requires other { at + PART_LEN ≤ length other.now }
    ensures { IsTrue result ↔ AreSameFrom at PART_LEN one.now other.now }
{
    let part = u8x64::from_slice(&one[at..]);
    part.simd_ne(u8x64::from_slice(&other[at..])).to_bitmask() == 0
}
