//! The hashes that a peer is asked for (BEP 52, "hash request").
ghost use Rattle.std.specs.Prelude.{◌≡◌, ◌≤◌, IfSome, IfNone, Some};
ghost use Rattle.bt_tree.specs.Limits.{max_block_count};
ghost use Rattle.bt_meta.specs.PieceBlocks.{HasBlock};
ghost use Rattle.bt_machine.specs.State.{PeerState};
ghost use Rattle.bt_machine.specs.Blocks.{tree_of, is_marked_in};
ghost use Rattle.bt_machine.specs.FollowUp.{IsLeastNeed};
ghost use Rattle.bt_engine_state.specs.Parts.{state_of};
ghost use Rattle.bt_engine_state.specs.Handling.{AreInShape, AreInShapeAt, KeepsDevices, KeepsKeys};
ghost use Rattle.bt_engine_after.specs.HashRequestsSteps.{AreHashesRequested, AsksForLeast, NeedsNoLeaf, IsUnknownFrom};

use crate::held::next_outside;
use crate::known_pieces::note_known_pieces;
use bt_book::BlockId;
use bt_disk::Disk;
use bt_engine_state::{Parts, PieceSet};
use bt_hashreq::{HashKey, plan};
use bt_machine::HashState;
use bt_sparse::SparseTree;
use bt_store::BlockState;
use bt_tree::NodeHash;
use bt_wire::Message;

/// Asks a peer for the hashes with the least leaf that it can tell us and that we need: that of a block in a
/// piece that it has, which is not marked. None where no leaf is needed, and where the peer is asked already
/// or rejected a request.
pub(crate) fn request_hashes<D: Disk + Drop, H: NodeHash>(
    parts: &mut Parts<D, H>,
    index: usize,
) -> Option<Message>
    requires { AreInShapeAt parts.old index }
    ensures requested { AreHashesRequested H.digest (state_of parts.old) index result
        (state_of parts.new) }
    ensures rest { KeepsDevices parts.old parts.new }
    ensures keys { KeepsKeys parts.old parts.new }
{
    let peer = &parts.peers[index];
    let HashState::Idle = peer.hash else {
        return None;
    };
    note_known_pieces(parts, index);
    let key = next_key(parts, &parts.peers[index].has)?;
    let peer = &mut parts.peers[index];
    peer.hash = HashState::Asked(key);
    Some(Message::HashRequest(key))
}

/// The key to ask for, of a peer that has these pieces. None where no leaf is needed.
fn next_key<D: Disk + Drop, H: NodeHash>(parts: &Parts<D, H>, has: &PieceSet) -> Option<HashKey>
    requires { AreInShape parts.now }
    ensures some { IfSome result (λ key. (p : PeerState) → p.has ≡ has.now
        → AsksForLeast H.digest (state_of parts.now) p key) }
    ensures none { IfNone result ((p : PeerState) → p.has ≡ has.now
        → NeedsNoLeaf H.digest (state_of parts.now) p) }
{
    let block = least_need(parts, has)?;
    plan(tree_at(parts, block), block.block)
}

/// The first block in a piece of the set that is not marked and whose leaf is unknown. It leaps from a block
/// that the peer has, in a piece that may have an unknown leaf, to the next unknown leaf, and from that to
/// the next such block. A marked block has a known leaf, so that it is passed by these leaps.
fn least_need<D: Disk + Drop, H: NodeHash>(parts: &Parts<D, H>, has: &PieceSet) -> Option<BlockId>
    requires { AreInShape parts.now }
    ensures block { IfSome result (λ b. HasBlock parts.now.torrent b.file b.block) }
    ensures some { IfSome result (λ b. (p : PeerState) → p.has ≡ has.now
        → IsLeastNeed H.digest (state_of parts.now) p b) }
    ensures none { IfNone result ((p : PeerState) → p.has ≡ has.now
        → NeedsNoLeaf H.digest (state_of parts.now) p) }
{
    let mut from = BlockId { file: 0, block: 0 };
    while let Some(held) = next_outside(&parts.torrent, has, &parts.known, from) {
        let unknown = next_unknown(parts, held);
        if unknown == held.block && !is_marked(parts, held) {
            return Some(held);
        }
        from = BlockId {
            file: held.file,
            block: unknown.max(held.block + 1),
        };
    }
    None
}

/// The first block of the file, from this one on, whose leaf is unknown; how many blocks the file has where
/// each leaf from there on is known.
pub(crate) fn next_unknown<D: Disk + Drop, H: NodeHash>(parts: &Parts<D, H>, block: BlockId) -> u32
    requires sound { AreInShape parts.now }
    requires has { HasBlock parts.now.torrent block.file block.block }
    ensures unknown { IsUnknownFrom H.digest (state_of parts.now) block result }
    ensures limit { result ≤ max_block_count }
{
    let tree = tree_at(parts, block);
    let blocks = tree.geometry().blocks();
    tree.next_unknown(block.block).unwrap_or(blocks)
}

/// The tree of the block's file.
fn tree_at<D: Disk + Drop, H: NodeHash>(parts: &Parts<D, H>, block: BlockId) -> &SparseTree<H>
    requires sound { AreInShape parts.now }
    requires has { HasBlock parts.now.torrent block.file block.block }
    ensures { tree_of (state_of parts.now) block.file ≡ Some result.now }
{
    let slots = parts.slots.as_slice();
    let trees = parts.trees.as_slice();
    &trees[slots[block.file as usize].tree as usize]
}

fn is_marked<D: Disk + Drop, H: NodeHash>(parts: &Parts<D, H>, block: BlockId) -> bool
    ensures { result ≡ is_marked_in (state_of parts.now) block }
{
    let slots = parts.slots.as_slice();
    match slots.get(block.file as usize) {
        Some(slot) => slot.state(block.block) == Some(BlockState::Marked),
        None => false,
    }
}
