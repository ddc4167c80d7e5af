//! Pieces of whose blocks each leaf is known, so that the search for a leaf that is needed passes them at
//! once.
ghost use Rattle.std.specs.Prelude.{◌≡◌, ◌<◌, ◌≤◌, Some, slice_get};
ghost use Rattle.bt_meta.specs.Torrent.{total_pieces};
ghost use Rattle.bt_engine_state.specs.Parts.{state_of};
ghost use Rattle.bt_engine_state.specs.Ties.{IsTied};
ghost use Rattle.bt_engine_state.specs.declared.peer.Peer.{Peer};
ghost use Rattle.bt_engine_state.specs.Handling.{AreInShape, AreInShapeAt};
ghost use Rattle.bt_engine_after.specs.KnownPiecesSteps.{AreAllNoted, AreKnownTo, AreNoted, IsKnown};

use crate::hash_requests::next_unknown;
use crate::held::first_piece;
use bt_book::BlockId;
use bt_disk::Disk;
use bt_engine_state::Parts;
use bt_tree::NodeHash;

/// Notes which pieces are known, of those that stand before the first unknown leaf that the peer at `index`
/// can tell us. Each piece is noted once, and later events pass it.
pub(crate) fn note_known_pieces<D: Disk + Drop, H: NodeHash>(parts: &mut Parts<D, H>, index: usize)
    requires { AreInShapeAt parts.old index }
    ensures noted { (peer : Peer) → slice_get parts.old.peers.items index ≡ Some peer
        → AreAllNoted (state_of parts.old) peer.has parts.new.known }
    ensures others { parts.new ≡ record parts.old { known = parts.new.known } }
    ensures tied { IsTied parts.new }
{
    let mut from = 0;
    while let Some(piece) = parts.peers[index].has.next_outside(&parts.known, from) {
        let end = known_to(parts, piece);
        if end <= piece {
            return;
        }
        note_pieces(parts, piece, end);
        from = end;
    }
}

/// Up to which piece, from this one on, each leaf is known. It is in the same file, or the first one after it.
fn known_to<D: Disk + Drop, H: NodeHash>(parts: &Parts<D, H>, piece: u32) -> u32
    requires { AreInShape parts.now }
    ensures known { AreKnownTo (state_of parts.now) piece result }
    ensures unknown { piece < total_pieces parts.now.torrent → result ≤ piece
        → ¬ IsKnown (state_of parts.now) piece }
    ensures inside { piece < result → result ≤ total_pieces parts.now.torrent }
{
    let torrent = &parts.torrent;
    torrent.keeps_laws();
    let Some(run) = torrent.blocks_of(piece) else {
        return piece;
    };
    let first = BlockId {
        file: run.file,
        block: run.first,
    };
    let unknown = BlockId {
        file: run.file,
        block: next_unknown(parts, first),
    };
    let pieces = torrent.pieces();
    first_piece(torrent, unknown).unwrap_or(pieces).min(pieces)
}

/// Notes that the pieces from one on, up to another, are known.
fn note_pieces<D: Disk + Drop, H: NodeHash>(parts: &mut Parts<D, H>, from: u32, to: u32)
    requires tied { IsTied parts.old }
    requires known { AreKnownTo (state_of parts.old) from to }
    requires inside { to ≤ total_pieces parts.old.torrent }
    ensures noted { AreNoted parts.old.known parts.new.known from to }
    ensures others { parts.new ≡ record parts.old { known = parts.new.known } }
    ensures tied { IsTied parts.new }
{
    for piece in from..to {
        parts.known.insert(piece);
    }
}
