//! Whether we are interested in a peer (BEP 3).
ghost use Rattle.std.specs.Prelude.{◌≡◌, ◌↔◌, IsTrue};
ghost use Rattle.bt_machine.specs.State.{PeerState};
ghost use Rattle.bt_machine.specs.FollowUp.{IsInteresting, interest_sent};
ghost use Rattle.bt_engine_state.specs.Parts.{state_of};
ghost use Rattle.bt_engine_state.specs.Handling.{AreInShape, AreInShapeAt, KeepsDevices, KeepsKeys};
ghost use Rattle.bt_engine_after.specs.HeldSteps.{IsNextHeld};
ghost use Rattle.bt_engine_after.specs.SendingSteps.{frames_of};
ghost use Rattle.bt_engine_after.specs.InterestSteps.{IsInterestTold};

use crate::held::next_held;
use bt_book::BlockId;
use bt_disk::Disk;
use bt_engine_state::{Parts, PieceSet};
use bt_tree::NodeHash;
use bt_wire::Message;

/// Finds out whether we are interested in a peer, and gives what it is to be told, where that has changed.
pub(crate) fn tell_interest<D: Disk + Drop, H: NodeHash>(
    parts: &mut Parts<D, H>,
    index: usize,
) -> Option<Message>
    requires { AreInShapeAt parts.old index }
    ensures told { IsInterestTold (state_of parts.old) index result (state_of parts.new) }
    ensures rest { KeepsDevices parts.old parts.new }
    ensures keys { KeepsKeys parts.old parts.new }
{
    let interested = is_interesting(parts, &parts.peers[index].has);
    let peer = &mut parts.peers[index];
    let was_interested = peer.am_interested;
    peer.am_interested = interested;
    change_of_interest(was_interested, interested)
}

/// What a peer is told, where our interest in it has changed.
fn change_of_interest(was_interested: bool, interested: bool) -> Option<Message>
    ensures { (p : PeerState) → frames_of p.key result ≡ interest_sent p was_interested interested }
{
    if interested == was_interested {
        return None;
    }
    if interested {
        return Some(Message::Interested);
    }
    Some(Message::NotInterested)
}

/// Whether a piece of the set holds a missing block.
fn is_interesting<D: Disk + Drop, H: NodeHash>(parts: &Parts<D, H>, has: &PieceSet) -> bool
    requires { AreInShape parts.now }
    ensures { (p : PeerState) → p.has ≡ has.now → IsTrue result ↔ IsInteresting
        (state_of parts.now) p }
{
    let torrent = &parts.torrent;
    parts.book.wants(
        |block: BlockId| -> Option<BlockId>
            ensures { IsNextHeld torrent.entry.now has.entry.now block result }
        { next_held(torrent, has, block) },
    )
}
