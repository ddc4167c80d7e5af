//! All groups of a file are taken in, one after the other, and their marked blocks and faults are summed.
ghost use Rattle.std.specs.Prelude.{◌≡◌, ◌+◌, ◌^◌, ◌<◌, ℕ, is_some, false, None, IfOk, IfErr, length};
ghost use Rattle.bt_sparse.specs.SparseTree.{value_at};
ghost use Rattle.bt_machine.specs.Adopting.{adopted_together};
ghost use Rattle.bt_engine_state.specs.Parts.{pending_of};
ghost use Rattle.bt_engine_after.specs.GroupSteps.{log_in, file_view};
ghost use Rattle.bt_engine_after.specs.GroupsSteps.{TakesGroups, StopsTaking};

use crate::group::adopt_group;
use bt_disk::{Disk, calls_compose};
use bt_engine_state::OpenLog;
use bt_sparse::SparseTree;
use bt_store::{Adopted, FileStore};
use bt_tree::NodeHash;
use std::alloc::{AllocError, Global};

/// Takes in all groups of a file, one after the other, and gives the sums. The one error is out of memory:
/// the groups that were taken in before stay so, and what they left for the log.
pub(crate) fn adopt_groups<D: Disk + Drop, H: NodeHash>(
    alloc: Global,
    store: &mut FileStore<D, H>,
    tree: &mut SparseTree<H>,
    file: u32,
    log: &mut Option<OpenLog<D>>,
) -> Result<Adopted, AllocError>
    requires { tree.old.file_length ≡ store.old.file_length }
    ensures ok { IfOk result (λ total. TakesGroups D.conduct H.digest file (is_some log.old)
        (file_view tree.old store.old (pending_of log.old)) total
        (file_view tree.new store.new (pending_of log.new))) }
    ensures all { IfOk result (λ total. total.next ≡ length store.old.states) }
    ensures stop { IfErr result (λ _. StopsTaking D.conduct H.digest file (is_some log.old)
        (file_view tree.old store.old (pending_of log.old))
        (file_view tree.new store.new (pending_of log.new))) }
    ensures unknown { IfErr result (λ _. is_some log.old ≡ false → (block : ℕ)
        × (block < length store.old.states) × (value_at H.digest tree.new 0 block ≡ None)) }
    ensures log { log_in log.new ≡ log_in log.old }
{
    let blocks = store.geometry().blocks();
    calls_compose::<D>();
    let mut total = Adopted {
        next: 0,
        anchor: 0,
        marked: 0,
        faults: 0,
    };
    while total.next < blocks {
        // A clause of the root says that the tree is rooted.
        let _ = tree.root();
        let group = adopt_group(alloc, store, tree, file, total.next, log)?;
        total = together(total, group);
    }
    Ok(total)
}

/// What was taken in before, and in the next group.
fn together(before: Adopted, group: Adopted) -> Adopted
    requires marked { before.marked + group.marked < 2 ^ 32 }
    requires faults { before.faults + group.faults < 2 ^ 32 }
    ensures { result ≡ adopted_together before group }
{
    Adopted {
        next: group.next,
        anchor: 0,
        marked: before.marked + group.marked,
        faults: before.faults + group.faults,
    }
}
