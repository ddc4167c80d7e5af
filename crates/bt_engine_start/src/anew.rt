//! An engine is begun anew with trees and books that were made before. Takes no memory.
ghost use Rattle.std.specs.Prelude.{[], ◌≡◌, map};
ghost use Rattle.bt_machine.specs.Restart.{KeepsPlaces};
ghost use Rattle.bt_engine_state.specs.Parts.{state_of, disks_of, log_of, hints_of, pending_of};
ghost use Rattle.bt_engine_state.specs.Handling.{AreInShape};
ghost use Rattle.bt_engine_start.specs.AnewSteps.{cleared, GoesOn};
ghost use Rattle.bt_engine_start.specs.BooksSteps.{AreNewBooks};
ghost use Rattle.bt_engine_start.specs.MakingSteps.{AreTreesFrom};
ghost use Rattle.bt_engine_start.specs.RecoverySteps.{HaveBegun};
ghost use Rattle.bt_engine_start.specs.StartingSteps.{log_in};

use crate::books::Books;
use bt_disk::Disk;
use bt_engine_state::{OpenLog, Parts, Slot};
use bt_meta::blocks_and_ranges_agree;
use bt_sparse::SparseTree;
use bt_tree::NodeHash;

/// Begins all anew with these trees and books: all blocks are missing, no peer is connected, and nothing waits
/// to be written to a log. The files are to be restored then. No device is called.
pub(crate) fn begin_again<D: Disk + Drop, H: NodeHash>(
    parts: &mut Parts<D, H>,
    trees: Vec<SparseTree<H>>,
    books: Books,
)
    requires sound { AreInShape parts.old }
    requires trees { AreTreesFrom H.digest parts.old.torrent parts.old.roots.first_files.items
        (hints_of parts.old.log) trees.items }
    requires books { AreNewBooks parts.old.torrent books }
    ensures begun { HaveBegun H.digest (hints_of parts.old.log) parts.new }
    ensures state { GoesOn parts.old parts.new }
    ensures places { KeepsPlaces (state_of parts.old) (state_of parts.new) }
    ensures devices { disks_of parts.new ≡ disks_of parts.old }
    ensures torrent { parts.new.torrent ≡ parts.old.torrent }
    ensures log { log_of parts.new ≡ log_of parts.old }
{
    blocks_and_ranges_agree();
    parts.torrent.keeps_laws();
    clear_slots(&mut parts.slots);
    parts.trees = trees;
    parts.counts = books.counts;
    parts.known = books.known;
    parts.peers = books.peers;
    parts.book = books.book;
    drop_pending(&mut parts.log);
}

/// What waited to be written to a log is let go.
fn drop_pending<D: Disk + Drop>(log: &mut Option<OpenLog<D>>)
    ensures pending { pending_of log.new ≡ [] }
    ensures log { log_in log.new ≡ log_in log.old }
{
    if let Some(open) = log {
        open.pending.clear();
    }
}

/// Makes all blocks missing. No device is called.
fn clear_slots<D: Disk + Drop, H: NodeHash>(slots: &mut [Slot<D, H>])
    ensures { slots.new ≡ map cleared slots.old }
{
    for slot in slots.iter_mut() {
        clear_slot(slot);
    }
}

/// Makes all blocks of a file missing.
fn clear_slot<D: Disk + Drop, H: NodeHash>(slot: &mut Slot<D, H>)
    ensures { slot.new ≡ cleared slot.old }
{
    if let Some(store) = &mut slot.store {
        store.clear();
    }
}
