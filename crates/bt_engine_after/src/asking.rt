//! The blocks that a peer is asked for.
ghost use Rattle.std.specs.Prelude.{◌≡◌, ◌<◌};
ghost use Rattle.bt_engine_state.specs.Parts.{state_of};
ghost use Rattle.bt_engine_state.specs.Handling.{AreInShapeAt, KeepsDevices};
ghost use Rattle.bt_engine_after.specs.HeldSteps.{IsNextHeld};
ghost use Rattle.bt_engine_after.specs.AskingSteps.{AreBlocksAsked};

use crate::held::next_held;
use arrayvec::ArrayVec;
use bt_book::{BlockId, MAX_REQUESTS};
use bt_disk::Disk;
use bt_engine_state::Parts;
use bt_tree::NodeHash;

/// Asks a peer for the open blocks, until it is asked for 16: for those that nobody is asked for first, and
/// then for those that it may be asked for beside others. For none where it chokes us or we are not
/// interested. The blocks are to be requested.
pub(crate) fn ask_blocks<D: Disk + Drop, H: NodeHash>(
    parts: &mut Parts<D, H>,
    index: usize,
) -> ArrayVec<BlockId, MAX_REQUESTS>
    requires { AreInShapeAt parts.old index }
    ensures asked { AreBlocksAsked (state_of parts.old) index result.items (state_of parts.new) }
    ensures rest { KeepsDevices parts.old parts.new }
    ensures peers { parts.new.peers ≡ parts.old.peers }
{
    parts.book.keeps_laws();
    let peer = &parts.peers[index];
    if peer.peer_choking || !peer.am_interested {
        return ArrayVec::new();
    }
    let torrent = &parts.torrent;
    let has = &peer.has;
    let blocks = parts.book.ask_all(
        peer.key,
        |block: BlockId| -> Option<BlockId>
            ensures { IsNextHeld torrent.entry.now has.entry.now block result }
        { next_held(torrent, has, block) },
    );
    parts.book.keeps_laws();
    blocks
}
