//! The digest of one message (FIPS 180-4, 6.2): its rounds one after the other, the schedules of eight message
//! blocks at a time in the lanes.

ghost use Rattle.std.specs.Prelude.{◌≡◌, ℕ, ◌+◌, ◌*◌, ◌<◌, ◌≤◌, List, length, take, drop};
ghost use Rattle.sha2.specs.Sha256.{digest_bytes, hash_after, sha256};
ghost use Rattle.bt_lanes.specs.LaneSteps.{message_at};

use crate::message_blocks::message_blocks_at;
use crate::padding::{tail, tail_block_count};
use crate::schedules::schedules;
use crate::word_compression::{HashValue, compress};
use bt_tree::Hash32;

/// The initial hash value (5.3.3).
const INITIAL: HashValue = [
    0x6a09_e667,
    0xbb67_ae85,
    0x3c6e_f372,
    0xa54f_f53a,
    0x510e_527f,
    0x9b05_688c,
    0x1f83_d9ab,
    0x5be0_cd19,
];

/// A message block.
#[inline(always)]
fn message_block(bytes: &[u8], index: usize) -> &[u8]
    requires { index * 64 + 64 ≤ length bytes.now }
    ensures { result.now ≡ take 64 (drop (index * 64) bytes.now) }
{
    &bytes[index * 64..index * 64 + 64]
}

/// Eight message blocks that lie next to each other, the last of them again in place of those past `count`.
#[inline(always)]
fn next_blocks(bytes: &[u8], first: usize, count: usize) -> [&[u8]; 8]
    requires some { 0 < count }
    requires within { (first + count) * 64 ≤ length bytes.now }
    ensures lengths { (j : ℕ) → j < 8 → length (message_at result j) ≡ 64 }
    ensures blocks { (j : ℕ) → j < 8 → j < count
        → message_at result j ≡ take 64 (drop ((first + j) * 64) bytes.now) }
{
    let last = count - 1;
    [
        message_block(bytes, first),
        message_block(bytes, first + last.min(1)),
        message_block(bytes, first + last.min(2)),
        message_block(bytes, first + last.min(3)),
        message_block(bytes, first + last.min(4)),
        message_block(bytes, first + last.min(5)),
        message_block(bytes, first + last.min(6)),
        message_block(bytes, first + last.min(7)),
    ]
}

/// The hash value after `count` message blocks more, at most eight, from one on.
fn absorb_next(value: HashValue, bytes: &[u8], first: usize, count: usize) -> HashValue
    requires some { 0 < count }
    requires few { count ≤ 8 }
    requires within { (first + count) * 64 ≤ length bytes.now }
    ensures { (start : List ℕ) → value ≡ hash_after start bytes.now first
        → result ≡ hash_after start bytes.now (first + count) }
{
    let blocks = next_blocks(bytes, first, count);
    let schedules = schedules(&message_blocks_at(&blocks, 0));
    let mut value = value;
    'absorbed: for j in 0..count {
        let next = compress(value, &schedules, j);
        value = next;
    }
    value
}

/// The hash value after the first `count` message blocks.
fn absorb(value: HashValue, bytes: &[u8], count: usize) -> HashValue
    requires { count * 64 ≤ length bytes.now }
    ensures { result ≡ hash_after value bytes.now count }
{
    let mut value = value;
    let mut done = 0;
    'absorbed: while done < count {
        let some = (count - done).min(8);
        let next = absorb_next(value, bytes, done, some);
        value = next;
        done += some;
    }
    value
}

/// A hash value, as bytes.
fn to_bytes(value: HashValue) -> Hash32
    ensures { result ≡ digest_bytes value 8 }
{
    let mut bytes = [0; 32];
    'words: for i in 0..8 {
        bytes[4 * i..4 * i + 4].copy_from_slice(&value[i].to_be_bytes());
    }
    bytes
}

/// The digest of a message.
pub(crate) fn digest_single(message: &[u8]) -> Hash32
    ensures { result ≡ sha256 message.now }
{
    let whole = absorb(INITIAL, message, message.len() / 64);
    let tail = tail(message);
    to_bytes(absorb(whole, &tail, tail_block_count(message.len())))
}
