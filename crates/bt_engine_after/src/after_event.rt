//! All that follows from an event for one peer, in its order: our interest, a hash request, block requests.
ghost use Rattle.std.specs.Prelude.{◌+◌, ◌≤◌, vec_len, vec_capacity};
ghost use Rattle.bt_engine_state.specs.Parts.{state_of};
ghost use Rattle.bt_engine_state.specs.Handling.{AreInShapeAt, KeepsDevices, KeepsKeys};
ghost use Rattle.bt_engine_after.specs.AfterEvent.{SendsFollowUp, max_frames};

use crate::asking::ask_blocks;
use crate::hash_requests::request_hashes;
use crate::interest::tell_interest;
use crate::sending::{send_message, send_requests};
use bt_book::{MAX_REQUESTS, PeerKey};
use bt_disk::Disk;
use bt_engine_state::Parts;
use bt_machine::Frame;
use bt_tree::NodeHash;

/// How many frames follow at most: one tells our interest, one is a hash request, and the others request blocks.
pub const MAX_FRAMES: usize = 2 + MAX_REQUESTS;

/// Does what follows from an event for the peer that stands at `index`: tells it a change of our interest,
/// sends it a hash request, and requests blocks of it. The frames come after those that are there, which
/// have room for `MAX_FRAMES` more.
pub fn follow_up<D: Disk + Drop, H: NodeHash>(
    parts: &mut Parts<D, H>,
    index: usize,
    send: &mut Vec<(PeerKey, Frame)>,
)
    requires peer { AreInShapeAt parts.old index }
    requires room { vec_len send.old + max_frames ≤ vec_capacity send.old }
    ensures follows { SendsFollowUp H.digest (state_of parts.old) index send.old.items
        send.new.items (state_of parts.new) }
    ensures few { vec_len send.new ≤ vec_len send.old + max_frames }
    ensures capacity { vec_capacity send.old ≤ vec_capacity send.new }
    ensures rest { KeepsDevices parts.old parts.new }
    ensures keys { KeepsKeys parts.old parts.new }
{
    let key = parts.peers[index].key;
    let interest = tell_interest(parts, index);
    send_message(send, key, interest);
    let hashes = request_hashes(parts, index);
    send_message(send, key, hashes);
    let blocks = ask_blocks(parts, index);
    send_requests(send, key, &parts.torrent, blocks.as_slice());
}
