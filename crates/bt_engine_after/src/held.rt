//! What a peer has, by leaps.
ghost use Rattle.std.specs.Prelude.{ℕ, Bool, List, IfSome, IfNone};
ghost use Rattle.bt_book.specs.BitSet.{IsNext};
ghost use Rattle.bt_engine_state.specs.PieceSets.{without};
ghost use Rattle.bt_engine_after.specs.HeldSteps.{IsFirstPiece, HasNoBlock, IsNextHeld};

use bt_book::BlockId;
use bt_engine_state::PieceSet;
use bt_meta::Torrent;

/// The first block, from one on, in a piece of the set. The block need not be one of the torrent's.
pub(crate) fn next_held(torrent: &Torrent, has: &PieceSet, from: BlockId) -> Option<BlockId>
    ensures { IsNextHeld torrent.now has.now from result }
{
    torrent.keeps_laws();
    let first = first_piece(torrent, from)?;
    let piece = has.next(first)?;
    first_in(torrent, piece, from)
}

/// The first block, from one on, in a piece of the set that is not in the other one. The block need not be one
/// of the torrent's.
pub(crate) fn next_outside(
    torrent: &Torrent,
    has: &PieceSet,
    other: &PieceSet,
    from: BlockId,
) -> Option<BlockId>
    ensures { IsNextHeld torrent.now (without has.now other.now) from result }
{
    torrent.keeps_laws();
    let first = first_piece(torrent, from)?;
    let piece = has.next_outside(other, first)?;
    first_in(torrent, piece, from)
}

/// The first block of the piece from one on, where the piece is the first of a set from that block's on.
fn first_in(torrent: &Torrent, piece: u32, from: BlockId) -> Option<BlockId>
    ensures { (pieces : List Bool) (first : ℕ) → IsFirstPiece torrent.now from first
        → IsNext pieces first piece → IsNextHeld torrent.now pieces from result }
{
    torrent.keeps_laws();
    let run = torrent.blocks_of(piece)?;
    let block = if run.file == from.file {
        run.first.max(from.block)
    } else {
        run.first
    };
    Some(BlockId {
        file: run.file,
        block,
    })
}

/// The first piece that has a block at this one or after it.
pub(crate) fn first_piece(torrent: &Torrent, from: BlockId) -> Option<u32>
    ensures some { IfSome result (IsFirstPiece torrent.now from) }
    ensures none { IfNone result (HasNoBlock torrent.now from) }
{
    torrent.keeps_laws();
    if let Some(range) = torrent.range_of(from.file, from.block) {
        return Some(range.piece);
    }
    let files = torrent.files();
    let next = files.get(from.file as usize + 1)?;
    Some(next.first_piece)
}
