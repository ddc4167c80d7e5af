//! SHA-256 of any number of messages, by eights: eight of one length at once, all others one by one.
ghost use Rattle.std.specs.Prelude.{◌≡◌, ℕ, ◌*◌, ◌/◌, ◌<◌, ◌↔◌, [], length, take, map, slice_index_or, All, IsTrue};
ghost use Rattle.sha2.specs.Sha256.{sha256};
ghost use Rattle.bt_lanes.specs.LaneSteps.{message_at};

use crate::digest::digest_eight;
use bt_tree::{Hash32, NodeHash, Plain};

/// Whether each message has this length.
fn have_length(messages: &[&[u8]; 8], len: usize) -> bool
    ensures { IsTrue result ↔ All (λ message. length message.now ≡ len) messages.now }
{
    messages.iter().all(|message| message.len() == len)
}

/// The digests of eight messages: at once, where they have one length.
fn digest_group(messages: &[&[u8]; 8]) -> [Hash32; 8]
    ensures { (j : ℕ) → j < 8 → slice_index_or result j [] ≡ sha256 (message_at messages.now j) }
{
    let len = messages[0].len();
    if have_length(messages, len) {
        return digest_eight(messages, len);
    }
    [
        Plain.block(messages[0]),
        Plain.block(messages[1]),
        Plain.block(messages[2]),
        Plain.block(messages[3]),
        Plain.block(messages[4]),
        Plain.block(messages[5]),
        Plain.block(messages[6]),
        Plain.block(messages[7]),
    ]
}

/// Writes the digests of the groups of eight messages in a row, each to its place.
fn digest_groups(messages: &[&[u8]], out: &mut [Hash32])
    requires { length out.old ≡ length messages.now }
    ensures size { length out.new ≡ length messages.now }
    ensures written { take (8 * (length messages.now / 8)) out.new
        ≡ map (λ message. sha256 message.now) (take (8 * (length messages.now / 8)) messages.now) }
{
    let (groups, _) = messages.as_chunks::<8>();
    'groups: for k in 0..groups.len() {
        out[8 * k..8 * k + 8].copy_from_slice(&digest_group(&groups[k]));
    }
}

/// Writes the digest of each message to its place in `out`.
///
/// The messages are taken by eights, from the first on: eight of one length are digested at once, any other
/// eight and the rest plainly.
pub fn digest_many(messages: &[&[u8]], out: &mut [Hash32])
    requires { length out.old ≡ length messages.now }
    ensures { out.new ≡ map (λ message. sha256 message.now) messages.now }
{
    digest_groups(messages, out);
    'rest: for i in 8 * (messages.len() / 8)..messages.len() {
        out[i] = Plain.block(messages[i]);
    }
}
