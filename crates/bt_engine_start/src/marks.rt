//! The blocks that marks of a log name wait to be read.
ghost use Rattle.std.specs.Prelude.{◌≡◌, ◌≤◌, ℕ, Some, length, option_map, slice_get, slice_set};
ghost use Rattle.bt_engine_start.specs.Runs.{marks_of};
ghost use Rattle.bt_engine_start.specs.MarksSteps.{recalled_slot, with_run};

use crate::recalling::recall_run;
use crate::runs::MarkRun;
use bt_disk::Disk;
use bt_engine_state::Slot;
use bt_sparse::SparseTree;
use bt_tree::NodeHash;

/// Of each file the missing blocks that the runs have, and whose leaves are known, wait then; others stay as
/// they are. Passed are runs of no file, and what of a run lies past its file's end. No device is called.
pub(crate) fn recall_marks<D: Disk + Drop, H: NodeHash>(
    slots: &mut [Slot<D, H>],
    trees: &[SparseTree<H>],
    runs: &[MarkRun],
)
    ensures { (file : ℕ) → slice_get slots.new file
        ≡ option_map (recalled_slot H.digest (marks_of runs.now) trees.now file)
        (slice_get slots.old file) }
{
    for run in runs {
        recall_in_file(slots, trees, run);
    }
}

/// Recalls a run of a file's blocks, where there is such a file.
fn recall_in_file<D: Disk + Drop, H: NodeHash>(
    slots: &mut [Slot<D, H>],
    trees: &[SparseTree<H>],
    run: &MarkRun,
)
    ensures inside { (slot : Slot D H) → slice_get slots.old run.now.file ≡ Some slot
        → slots.new ≡ slice_set slots.old run.now.file (with_run H.digest trees.now run.now slot) }
    ensures outside { length slots.old ≤ run.now.file → slots.new ≡ slots.old }
{
    let file = run.file as usize;
    if file < slots.len() {
        recall_in_slot(&mut slots[file], trees, run);
    }
}

/// Recalls a run of a file's blocks: those that lie in the file, are missing, and whose leaves are known.
fn recall_in_slot<D: Disk + Drop, H: NodeHash>(
    slot: &mut Slot<D, H>,
    trees: &[SparseTree<H>],
    run: &MarkRun,
)
    ensures { slot.new ≡ with_run H.digest trees.now run.now slot.old }
{
    let Some(store) = &mut slot.store else {
        return;
    };
    if let Some(tree) = trees.get(slot.tree as usize) {
        recall_run(store, tree, run);
    }
}
