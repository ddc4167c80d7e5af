//! A run of marks from a log makes those missing blocks wait whose leaves are known: each is to be read
//! before it is marked.
ghost use Rattle.std.specs.Prelude.{◌≡◌, length};
ghost use Rattle.bt_store.specs.Law.{all_recalled};
ghost use Rattle.bt_engine_start.specs.RecallingSteps.{known_in_run};

use crate::runs::MarkRun;
use bt_disk::Disk;
use bt_sparse::SparseTree;
use bt_store::FileStore;
use bt_tree::NodeHash;

/// Of a run of marks, the blocks that lie in the file and whose leaves are known are recalled: each that is
/// missing waits then, and any other stays as it is. No call of the device is made. It looks at each block of
/// the run that lies in the file, once.
pub(crate) fn recall_run<D: Disk + Drop, H: NodeHash>(
    store: &mut FileStore<D, H>,
    tree: &SparseTree<H>,
    run: &MarkRun,
)
    ensures states { store.new.states ≡ all_recalled store.old.states
        (known_in_run H.digest tree.now (length store.old.states) run.now) }
    ensures others { store.new ≡ record store.old { states = store.new.states } }
{
    let blocks = store.geometry().blocks();
    let end = run.end.min(u64::from(blocks)) as u32;
    for block in run.first..end {
        if tree.known(0, block).is_some() {
            store.recall(block);
        }
    }
}
