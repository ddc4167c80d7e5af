//! The end of a message: its bytes after the last whole message block, and its padding (FIPS 180-4, 5.1.1).

ghost use Rattle.std.specs.Prelude.{◌≡◌, ℕ, ◌<◌, [], slice_index_or};
ghost use Rattle.bt_lanes.specs.LaneSteps.{message_at};
ghost use Rattle.bt_lanes.specs.PaddingSteps.{tail_block_count, IsTail};

/// How many message blocks the tail of a message of this length has.
pub(crate) fn tail_block_count(length: usize) -> usize
    ensures { result ≡ tail_block_count length }
{
    (length % 64 + 8) / 64 + 1
}

/// The bytes of the message after its last whole message block, and its padding.
pub(crate) fn tail(message: &[u8]) -> [u8; 128]
    ensures { IsTail message.now result }
{
    let used = message.len() % 64;
    let end = 64 * tail_block_count(message.len());
    let bit_length = (message.len() as u64).wrapping_mul(8);
    let mut tail = [0; 128];
    tail[0..used].copy_from_slice(&message[message.len() / 64 * 64..]);
    tail[used] = 0x80;
    tail[end - 8..end].copy_from_slice(&bit_length.to_be_bytes());
    tail
}

/// The tail of each message.
pub(crate) fn tails(messages: &[&[u8]; 8]) -> [[u8; 128]; 8]
    ensures { (j : ℕ) → j < 8 → IsTail (message_at messages.now j) (slice_index_or result j []) }
{
    [
        tail(messages[0]),
        tail(messages[1]),
        tail(messages[2]),
        tail(messages[3]),
        tail(messages[4]),
        tail(messages[5]),
        tail(messages[6]),
        tail(messages[7]),
    ]
}
