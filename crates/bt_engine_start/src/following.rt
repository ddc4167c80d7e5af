//! The request book and the counts follow files of which all blocks were missing.
ghost use Rattle.std.specs.Prelude.{◌≡◌, length};
ghost use Rattle.bt_book.specs.Book.{peers_of};
ghost use Rattle.bt_machine.specs.State.{EngineState};
ghost use Rattle.bt_engine_state.specs.BlockChange.{AreFollowed};
ghost use Rattle.bt_engine_start.specs.FollowingSteps.{HasFiles, missing_from};

use bt_book::Book;
use bt_disk::Disk;
use bt_engine_state::{Counts, Slot, count_in};
use bt_meta::Torrent;
use bt_store::BlockState;
use bt_tree::NodeHash;

/// File after file, the book and the counts follow the blocks, all of which they had as missing.
pub(crate) fn follow_files<D: Disk + Drop, H: NodeHash>(
    torrent: &Torrent,
    slots: &[Slot<D, H>],
    book: &mut Book,
    counts: &mut Counts,
)
    requires count { length slots.now ≡ length torrent.now.files }
    requires followed { (s : EngineState) × HasFiles torrent.now slots.now s
        × AreFollowed (missing_from 0 s) book.old.wanted counts.old }
    ensures followed { (s : EngineState) → HasFiles torrent.now slots.now s
        → AreFollowed (missing_from 0 s) book.old.wanted counts.old
        → AreFollowed s book.new.wanted counts.new }
    ensures peers { peers_of book.new ≡ peers_of book.old }
{
    let count = torrent.files().len() as u32;
    for file in 0..count {
        let slot = &slots[file as usize];
        count_in(torrent, slot, file, BlockState::Missing, book, counts);
    }
}
