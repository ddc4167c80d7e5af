//! The rounds of SHA-256 (FIPS 180-4, 6.2.2) on a message block of each of eight messages.

ghost use Rattle.std.specs.Prelude.{◌≡◌, ℕ, ◌+◌, ◌<◌, ◌≤◌, List, slice_index};
ghost use Rattle.sha2.specs.Sha256.{round, rounds, schedule, add_state, compress, window_word, IsRoundsAt};
ghost use Rattle.bt_lanes.specs.LaneSteps.{lane_of, lane_of_eight, temp1_of, temp2_of, IsBlockWords};

use crate::functions::{add, big_sigma0, big_sigma1, ch, maj, small_sigma0, small_sigma1};
use std::simd::u32x8;

/// A hash value of each message: vector i has their words i.
pub(crate) type HashValues = [u32x8; 8];

/// A message block of each message: vector i has their words i.
pub(crate) type MessageBlocks = [u32x8; 16];

/// The round constants (FIPS 180-4, 4.2.2).
pub(crate) const ROUND_CONSTANTS: [u32; 64] = [
    0x428a_2f98,
    0x7137_4491,
    0xb5c0_fbcf,
    0xe9b5_dba5,
    0x3956_c25b,
    0x59f1_11f1,
    0x923f_82a4,
    0xab1c_5ed5,
    0xd807_aa98,
    0x1283_5b01,
    0x2431_85be,
    0x550c_7dc3,
    0x72be_5d74,
    0x80de_b1fe,
    0x9bdc_06a7,
    0xc19b_f174,
    0xe49b_69c1,
    0xefbe_4786,
    0x0fc1_9dc6,
    0x240c_a1cc,
    0x2de9_2c6f,
    0x4a74_84aa,
    0x5cb0_a9dc,
    0x76f9_88da,
    0x983e_5152,
    0xa831_c66d,
    0xb003_27c8,
    0xbf59_7fc7,
    0xc6e0_0bf3,
    0xd5a7_9147,
    0x06ca_6351,
    0x1429_2967,
    0x27b7_0a85,
    0x2e1b_2138,
    0x4d2c_6dfc,
    0x5338_0d13,
    0x650a_7354,
    0x766a_0abb,
    0x81c2_c92e,
    0x9272_2c85,
    0xa2bf_e8a1,
    0xa81a_664b,
    0xc24b_8b70,
    0xc76c_51a3,
    0xd192_e819,
    0xd699_0624,
    0xf40e_3585,
    0x106a_a070,
    0x19a4_c116,
    0x1e37_6c08,
    0x2748_774c,
    0x34b0_bcb5,
    0x391c_0cb3,
    0x4ed8_aa4a,
    0x5b9c_ca4f,
    0x682e_6ff3,
    0x748f_82ee,
    0x78a5_636f,
    0x84c8_7814,
    0x8cc7_0208,
    0x90be_fffa,
    0xa450_6ceb,
    0xbef9_a3f7,
    0xc671_78f2,
];

/// The first temporary word of a round (6.2.2).
#[inline(always)]
fn temp1(e: u32x8, f: u32x8, g: u32x8, h: u32x8, constant: u32, words: u32x8) -> u32x8
    ensures { (j : ℕ) → j < 8 → slice_index result j ≡ temp1_of (slice_index e j) (slice_index f j)
        (slice_index g j) (slice_index h j) constant (slice_index words j) }
{
    let sum = add(add(h, big_sigma1(e)), ch(e, f, g));
    add(add(sum, u32x8::splat(constant)), words)
}

/// The second temporary word of a round (6.2.2).
#[inline(always)]
fn temp2(a: u32x8, b: u32x8, c: u32x8) -> u32x8
    ensures { (j : ℕ) → j < 8
        → slice_index result j ≡ temp2_of (slice_index a j) (slice_index b j) (slice_index c j) }
{
    add(big_sigma0(a), maj(a, b, c))
}

/// The working variables after a round with this round constant and the words of this round.
#[inline(always)]
fn round(variables: HashValues, constant: u32, words: u32x8) -> HashValues
    ensures { (j : ℕ) → j < 8
        → lane_of_eight j result ≡ round (lane_of_eight j variables) constant
        (slice_index words j) }
{
    let [a, b, c, d, e, f, g, h] = variables;
    let temp1 = temp1(e, f, g, h, constant, words);
    let temp2 = temp2(a, b, c);
    [add(temp1, temp2), a, b, c, add(d, temp1), e, f, g]
}

/// Word t of each message schedule, from the 16 before it: word s is in vector s % 16.
#[inline(always)]
fn next_words(schedule: &MessageBlocks, t: usize) -> u32x8
    requires { t < 64 }
    ensures { (j : ℕ) → j < 8 → slice_index result j ≡ window_word (lane_of j schedule.now) t }
{
    let sum = add(
        small_sigma1(schedule[(t + 14) % 16]),
        schedule[(t + 9) % 16],
    );
    add(
        add(sum, small_sigma0(schedule[(t + 1) % 16])),
        schedule[t % 16],
    )
}

/// The hash values with the working variables added.
#[inline(always)]
fn add_variables(values: HashValues, variables: HashValues) -> HashValues
    ensures { (j : ℕ) → j < 8
        → lane_of_eight j result ≡ add_state (lane_of_eight j values) (lane_of_eight j variables) }
{
    [
        add(values[0], variables[0]),
        add(values[1], variables[1]),
        add(values[2], variables[2]),
        add(values[3], variables[3]),
        add(values[4], variables[4]),
        add(values[5], variables[5]),
        add(values[6], variables[6]),
        add(values[7], variables[7]),
    ]
}

/// The working variables after round t below 16, whose words are those of the blocks.
#[inline(always)]
fn first_round(variables: HashValues, blocks: &MessageBlocks, t: usize) -> HashValues
    requires { t < 16 }
    ensures { (j : ℕ) (value block : List ℕ) → j < 8 → IsBlockWords block (lane_of j blocks.now)
        → lane_of_eight j variables ≡ rounds value (schedule block 48) t
        → lane_of_eight j result ≡ rounds value (schedule block 48) (t + 1) }
{
    round(variables, ROUND_CONSTANTS[t], blocks[t])
}

/// The working variables after four rounds from t on, below 16.
#[inline(always)]
fn first_rounds(variables: HashValues, blocks: &MessageBlocks, t: usize) -> HashValues
    requires { t + 4 ≤ 16 }
    ensures { (j : ℕ) (value block : List ℕ) → j < 8 → IsBlockWords block (lane_of j blocks.now)
        → lane_of_eight j variables ≡ rounds value (schedule block 48) t
        → lane_of_eight j result ≡ rounds value (schedule block 48) (t + 4) }
{
    let one = first_round(variables, blocks, t);
    let two = first_round(one, blocks, t + 1);
    let three = first_round(two, blocks, t + 2);
    first_round(three, blocks, t + 3)
}

/// The working variables after round t from 16 on. Its words take the place of those of 16 rounds before.
#[inline(always)]
fn next_round(variables: HashValues, schedule: &mut MessageBlocks, t: usize) -> HashValues
    requires { (16 ≤ t) × (t < 64) }
    ensures { (j : ℕ) (value block : List ℕ) → j < 8
        → IsRoundsAt block value (lane_of j schedule.old) (lane_of_eight j variables) t
        → IsRoundsAt block value (lane_of j schedule.new) (lane_of_eight j result) (t + 1) }
{
    let words = next_words(schedule, t);
    schedule[t % 16] = words;
    round(variables, ROUND_CONSTANTS[t], words)
}

/// The working variables after four rounds from t on, from 16 on. By fours a round's variables are renamed
/// and not moved.
#[inline(always)]
fn next_rounds(variables: HashValues, schedule: &mut MessageBlocks, t: usize) -> HashValues
    requires { (16 ≤ t) × (t + 4 ≤ 64) }
    ensures { (j : ℕ) (value block : List ℕ) → j < 8
        → IsRoundsAt block value (lane_of j schedule.old) (lane_of_eight j variables) t
        → IsRoundsAt block value (lane_of j schedule.new) (lane_of_eight j result) (t + 4) }
{
    let one = next_round(variables, schedule, t);
    let two = next_round(one, schedule, t + 1);
    let three = next_round(two, schedule, t + 2);
    next_round(three, schedule, t + 3)
}

/// The hash values after a block of each message.
#[inline(always)]
pub(crate) fn compress(values: HashValues, blocks: &MessageBlocks) -> HashValues
    ensures { (j : ℕ) (block : List ℕ) → j < 8 → IsBlockWords block (lane_of j blocks.now)
        → lane_of_eight j result ≡ compress (lane_of_eight j values) block }
{
    let mut schedule = *blocks;
    let mut variables = values;
    'first: for four in 0..4 {
        let next = first_rounds(variables, blocks, 4 * four);
        variables = next;
    }
    'rest: for four in 4..16 {
        let next = next_rounds(variables, &mut schedule, 4 * four);
        variables = next;
    }
    add_variables(values, variables)
}
