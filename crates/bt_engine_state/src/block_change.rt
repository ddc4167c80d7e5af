//! The request book and the counts follow a block whose state has changed in its store.
ghost use Rattle.std.specs.Prelude.{◌≡◌, ◌<◌, Some};
ghost use Rattle.bt_meta.specs.Torrent.{total_pieces};
ghost use Rattle.bt_meta.specs.PieceBlocks.{HasBlock};
ghost use Rattle.bt_book.specs.Book.{asked_of, peers_of};
ghost use Rattle.bt_machine.specs.State.{EngineState};
ghost use Rattle.bt_machine.specs.Blocks.{piece_of as piece_in};
ghost use Rattle.bt_engine_state.specs.BlockChange.{AreFollowed, OneChanged, HasChanged, asked_after};

use crate::counts::{Counts, count_block};
use bt_book::{BlockId, Book, PeerKey};
use bt_meta::Torrent;
use bt_store::BlockState;

/// Brings the request book and the counts in line with one block: in its store, its state was `was` and is
/// `now`. Nobody is asked any longer for a block that is missing no more.
pub fn follow_block(
    torrent: &Torrent,
    book: &mut Book,
    counts: &mut Counts,
    block: BlockId,
    was: BlockState,
    now: BlockState,
)
    requires { HasChanged torrent.now book.old.wanted counts.old block was now }
    ensures followed { (s t : EngineState) → s.torrent ≡ torrent.now
        → AreFollowed s book.old.wanted counts.old → OneChanged s t block was now
        → AreFollowed t book.new.wanted counts.new }
    ensures asked { (key : PeerKey)
        → asked_of book.new key ≡ asked_after block was now (asked_of book.old key) }
    ensures peers { peers_of book.new ≡ peers_of book.old }
{
    torrent.keeps_laws();
    book.keeps_laws();
    let piece = piece_of(torrent, block);
    count_block(counts, piece, was, now);
    match now {
        BlockState::Missing => book.want(block),
        BlockState::Waiting | BlockState::Marked => book.done(block),
    }
}

/// The piece of a block of the torrent.
fn piece_of(torrent: &Torrent, block: BlockId) -> u32
    requires { HasBlock torrent.now block.file block.block }
    ensures lies { piece_in torrent.now block ≡ Some result }
    ensures inside { result < total_pieces torrent.now }
{
    torrent.keeps_laws();
    let Some(range) = torrent.range_of(block.file, block.block) else {
        unreachable!();
    };
    range.piece
}
