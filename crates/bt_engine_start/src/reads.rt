//! The blocks that wait are read.
ghost use Rattle.std.specs.Prelude.{◌≡◌, ℕ, List, Some, map, slice_get};
ghost use Rattle.bt_resume.specs.declared.hint.Hint.{Hint};
ghost use Rattle.bt_engine_start.specs.RecoverySteps.{AreMissing};
ghost use Rattle.bt_engine_start.specs.Runs.{AreRunsOf};
ghost use Rattle.bt_engine_start.specs.RestoringSteps.{tree_and_length, block_total};
ghost use Rattle.bt_engine_start.specs.RestoringSteps.{HasTree, HaveTrees, RestoresSlots};
ghost use Rattle.bt_engine_start.specs.ReadsSteps.{IsSettled};

use crate::marks::recall_marks;
use crate::runs::MarkRun;
use bt_disk::Disk;
use bt_engine_state::Slot;
use bt_sparse::SparseTree;
use bt_tree::NodeHash;

/// File after file, each block of the runs whose leaf is known is read, once and upwards, eight at a time, and
/// is marked where its bytes are right. All other blocks are missing, as all were before. Takes no memory.
pub(crate) fn restore_files<D: Disk + Drop, H: NodeHash>(
    slots: &mut [Slot<D, H>],
    trees: &[SparseTree<H>],
    runs: &[MarkRun],
)
    requires trees { HaveTrees trees.now slots.old }
    requires missing { AreMissing slots.old }
    ensures restores { (hints : List Hint) → AreRunsOf hints runs.now
        → RestoresSlots D.conduct H.digest hints trees.now slots.old slots.new }
    ensures kept { map tree_and_length slots.new ≡ map tree_and_length slots.old }
    ensures sizes { map block_total slots.new ≡ map block_total slots.old }
{
    recall_marks(slots, trees, runs);
    settle_files(slots, trees);
}

/// File after file, the blocks that wait are read.
fn settle_files<D: Disk + Drop, H: NodeHash>(slots: &mut [Slot<D, H>], trees: &[SparseTree<H>])
    requires { HaveTrees trees.now slots.old }
    ensures { (file : ℕ) (slot : Slot D H) → slice_get slots.old file ≡ Some slot
        → (after : Slot D H) × (slice_get slots.new file ≡ Some after)
        × IsSettled D.conduct H.digest trees.now slot after }
{
    for slot in slots.iter_mut() {
        settle_slot(slot, trees);
    }
}

/// The blocks of a file that wait are read.
fn settle_slot<D: Disk + Drop, H: NodeHash>(slot: &mut Slot<D, H>, trees: &[SparseTree<H>])
    requires { HasTree trees.now (tree_and_length slot.old) }
    ensures { IsSettled D.conduct H.digest trees.now slot.old slot.new }
{
    let Some(store) = &mut slot.store else {
        return;
    };
    let blocks = store.geometry().blocks();
    store.settle(&trees[slot.tree as usize], 0, blocks).unwrap();
}
