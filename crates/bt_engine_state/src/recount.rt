//! A file of which many blocks change at once is left out of the request book and of the counts, and counted
//! in again when it has changed. So nothing has to keep the states that its blocks had.
ghost use Rattle.std.specs.Prelude.{◌≡◌};
ghost use Rattle.bt_book.specs.Book.{peers_of};
ghost use Rattle.bt_machine.specs.State.{EngineState};
ghost use Rattle.bt_engine_state.specs.BlockChange.{AreFollowed};
ghost use Rattle.bt_engine_state.specs.Parts.{file_of};
ghost use Rattle.bt_engine_state.specs.Recount.{HasFile, with_all};

use crate::block_change::follow_block;
use crate::counts::Counts;
use crate::slot::Slot;
use bt_book::{BlockId, Book};
use bt_disk::Disk;
use bt_meta::Torrent;
use bt_store::BlockState;
use bt_tree::NodeHash;

/// Leaves a file out: the book and the counts become what they are where all its blocks are marked.
pub fn leave_out<D: Disk + Drop, H: NodeHash>(
    torrent: &Torrent,
    slot: &Slot<D, H>,
    file: u32,
    book: &mut Book,
    counts: &mut Counts,
)
    requires { (s : EngineState) × HasFile torrent.now file (file_of slot.now) s
        × AreFollowed s book.old.wanted counts.old }
    ensures followed { (s : EngineState) → HasFile torrent.now file (file_of slot.now) s
        → AreFollowed s book.old.wanted counts.old
        → AreFollowed (with_all BlockState.Marked s file) book.new.wanted counts.new }
    ensures peers { peers_of book.new ≡ peers_of book.old }
{
    let count = slot.blocks();
    for block in 0..count {
        let state = slot.own_state(block);
        if state == BlockState::Marked {
            continue;
        }
        follow_block(
            torrent,
            book,
            counts,
            BlockId { file, block },
            state,
            BlockState::Marked,
        );
    }
}

/// Counts a file in: so far the book and the counts are what they are where all its blocks are in the state
/// `was`. At a block that is, it only looks.
pub fn count_in<D: Disk + Drop, H: NodeHash>(
    torrent: &Torrent,
    slot: &Slot<D, H>,
    file: u32,
    was: BlockState,
    book: &mut Book,
    counts: &mut Counts,
)
    requires { (s : EngineState) × HasFile torrent.now file (file_of slot.now) s
        × AreFollowed (with_all was s file) book.old.wanted counts.old }
    ensures followed { (s : EngineState) → HasFile torrent.now file (file_of slot.now) s
        → AreFollowed (with_all was s file) book.old.wanted counts.old
        → AreFollowed s book.new.wanted counts.new }
    ensures peers { peers_of book.new ≡ peers_of book.old }
{
    let count = slot.blocks();
    for block in 0..count {
        let state = slot.own_state(block);
        if state == was {
            continue;
        }
        follow_block(torrent, book, counts, BlockId { file, block }, was, state);
    }
}
