//! The rounds of SHA-256 (FIPS 180-4, 6.2.2) on one message block, whose schedule is made.

ghost use Rattle.std.specs.Prelude.{◌≡◌, ℕ, ◌<◌, List, slice_index};
ghost use Rattle.sha2.specs.Sha256.{compress, schedule};
ghost use Rattle.bt_lanes.specs.LaneSteps.{lane_word, temp1_of, temp2_of};

use crate::compression::ROUND_CONSTANTS;
use crate::schedules::Schedules;
use crate::word_functions::{big_sigma0, big_sigma1, ch, maj};

/// A hash value.
pub(crate) type HashValue = [u32; 8];

/// The first temporary word of a round (6.2.2).
#[inline(always)]
fn temp1(e: u32, f: u32, g: u32, h: u32, constant: u32, word: u32) -> u32
    ensures { result ≡ temp1_of e f g h constant word }
{
    let known = h.wrapping_add(constant).wrapping_add(word);
    known.wrapping_add(ch(e, f, g)).wrapping_add(big_sigma1(e))
}

/// The second temporary word of a round (6.2.2).
#[inline(always)]
fn temp2(a: u32, b: u32, c: u32) -> u32
    ensures { result ≡ temp2_of a b c }
{
    big_sigma0(a).wrapping_add(maj(a, b, c))
}

/// The hash value after a message block, whose schedule stands in this place of each row. After eight rounds
/// each working variable is where it was, so that none is moved.
pub(crate) fn compress(value: HashValue, schedules: &Schedules, place: usize) -> HashValue
    requires { place < 8 }
    ensures { (block : List ℕ)
        → ((k : ℕ) → k < 64 → lane_word schedules.now k place ≡ slice_index (schedule block 48) k)
        → result ≡ compress value block }
{
    let [mut a, mut b, mut c, mut d, mut e, mut f, mut g, mut h] = value;
    'rounds: for eight_rounds in 0..8usize {
        let t = 8 * eight_rounds;
        let one = temp1(e, f, g, h, ROUND_CONSTANTS[t], schedules[t][place]);
        d = d.wrapping_add(one);
        h = one.wrapping_add(temp2(a, b, c));
        let two = temp1(d, e, f, g, ROUND_CONSTANTS[t + 1], schedules[t + 1][place]);
        c = c.wrapping_add(two);
        g = two.wrapping_add(temp2(h, a, b));
        let three = temp1(c, d, e, f, ROUND_CONSTANTS[t + 2], schedules[t + 2][place]);
        b = b.wrapping_add(three);
        f = three.wrapping_add(temp2(g, h, a));
        let four = temp1(b, c, d, e, ROUND_CONSTANTS[t + 3], schedules[t + 3][place]);
        a = a.wrapping_add(four);
        e = four.wrapping_add(temp2(f, g, h));
        let five = temp1(a, b, c, d, ROUND_CONSTANTS[t + 4], schedules[t + 4][place]);
        h = h.wrapping_add(five);
        d = five.wrapping_add(temp2(e, f, g));
        let six = temp1(h, a, b, c, ROUND_CONSTANTS[t + 5], schedules[t + 5][place]);
        g = g.wrapping_add(six);
        c = six.wrapping_add(temp2(d, e, f));
        let seven = temp1(g, h, a, b, ROUND_CONSTANTS[t + 6], schedules[t + 6][place]);
        f = f.wrapping_add(seven);
        b = seven.wrapping_add(temp2(c, d, e));
        let eight = temp1(f, g, h, a, ROUND_CONSTANTS[t + 7], schedules[t + 7][place]);
        e = e.wrapping_add(eight);
        a = eight.wrapping_add(temp2(b, c, d));
    }
    [
        value[0].wrapping_add(a),
        value[1].wrapping_add(b),
        value[2].wrapping_add(c),
        value[3].wrapping_add(d),
        value[4].wrapping_add(e),
        value[5].wrapping_add(f),
        value[6].wrapping_add(g),
        value[7].wrapping_add(h),
    ]
}
