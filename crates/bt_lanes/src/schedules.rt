//! The message schedules of eight message blocks (FIPS 180-4, 6.2.2), which follow from the blocks alone: those
//! of one message are made together, though its rounds go block by block.

ghost use Rattle.std.specs.Prelude.{◌≡◌, ℕ, ◌<◌, ◌≤◌, List, slice_index};
ghost use Rattle.sha2.specs.Sha256.{next_word, schedule};
ghost use Rattle.bt_lanes.specs.LaneSteps.{lane_word, lane_of, IsBlockWords};

use crate::compression::MessageBlocks;
use crate::functions::{add, small_sigma0, small_sigma1};
use std::simd::u32x8;

/// The message schedules of eight message blocks: row t has their words t.
pub(crate) type Schedules = [[u32; 8]; 64];

/// The words t of the schedules.
#[inline(always)]
fn row(schedules: &Schedules, t: usize) -> u32x8
    requires { t < 64 }
    ensures { (j : ℕ) → slice_index result j ≡ slice_index (lane_of j schedules.now) t }
{
    u32x8::from_array(schedules[t])
}

/// The words t of the schedules, from those before them.
#[inline(always)]
fn next_row(schedules: &Schedules, t: usize) -> [u32; 8]
    requires { (16 ≤ t) × (t < 64) }
    ensures { (j : ℕ) → j < 8 → slice_index result j ≡ next_word (lane_of j schedules.now) t }
{
    let sum = add(small_sigma1(row(schedules, t - 2)), row(schedules, t - 7));
    let words = add(
        add(sum, small_sigma0(row(schedules, t - 15))),
        row(schedules, t - 16),
    );
    words.to_array()
}

/// The schedules of eight message blocks.
#[inline(always)]
pub(crate) fn schedules(blocks: &MessageBlocks) -> Schedules
    ensures { (j k : ℕ) (block : List ℕ) → j < 8 → k < 64 → IsBlockWords block
        (lane_of j blocks.now)
        → lane_word result k j ≡ slice_index (schedule block 48) k }
{
    let mut schedules = [[0; 8]; 64];
    'first: for t in 0..16 {
        schedules[t] = blocks[t].to_array();
    }
    'rest: for t in 16..64 {
        let next = next_row(&schedules, t);
        schedules[t] = next;
    }
    schedules
}
