//! The other files of a tree, of which blocks waited for their leaf.
ghost use Rattle.std.specs.Prelude.{[], ◌≡◌, ◌<◌, ◌==◌, ◌↔◌, is_some, true, IsTrue, OnOk, OnErr, vec_len};
ghost use Rattle.bt_machine.specs.Adopting.{is_other};
ghost use Rattle.bt_engine_state.specs.Parts.{pending_of};
ghost use Rattle.bt_engine_state.specs.Roots.{LeadThrough};
ghost use Rattle.bt_engine_after.specs.PartsSteps.{AreInLine, KeepsRest};
ghost use Rattle.bt_engine_after.specs.SettlingSteps.{SettlesFiles, SettlesOthers, IsDue};
ghost use Rattle.bt_engine_after.specs.WaitingSteps.{OnlyPendingChanges};

use crate::waiting::{leave_marks, list_waiting};
use bt_disk::Disk;
use bt_engine_state::{Parts, Slot, count_in, leave_out};
use bt_store::BlockState;
use bt_tree::NodeHash;
use std::alloc::{AllocError, Global};

/// Settles all blocks of the other files of a tree, all but this one. With a log the marks of those that have
/// become marked are pending after what was. No peer is connected. Where no block of any file waits, no other
/// file is looked at.
///
/// Errors: out of memory, and then no block has changed, and nothing more is pending.
pub(crate) fn settle_recorded<D: Disk + Drop, H: NodeHash>(
    alloc: Global,
    parts: &mut Parts<D, H>,
    tree: usize,
    file: u32,
) -> Result<(), AllocError>
    requires alone { parts.old.peers.items ≡ [] }
    requires in_line { AreInLine parts.old }
    requires here { tree < vec_len parts.old.trees }
    requires lead { LeadThrough parts.old.slots.items parts.old.roots tree }
    ensures settles { OnOk result (SettlesOthers D.conduct H.digest file tree
        parts.old parts.new) }
    ensures refused { OnErr result (OnlyPendingChanges parts.old parts.new) }
    ensures pending { OnErr result (pending_of parts.new.log ≡ pending_of parts.old.log) }
    ensures logged { OnErr result (is_some parts.old.log ≡ true) }
    ensures rest { KeepsRest parts.old parts.new }
    ensures in_line { AreInLine parts.new }
{
    let waiting = parts.counts.waiting;
    if waiting == 0 {
        return Ok(());
    }
    let listed = list_waiting(alloc, parts, tree, file)?;
    settle_others(parts, tree, file);
    leave_marks(parts, &listed);
    Ok(())
}

/// Settles all blocks of the other files of a tree, all but this one, and looks at no file of another tree. No
/// peer is connected.
fn settle_others<D: Disk + Drop, H: NodeHash>(parts: &mut Parts<D, H>, tree: usize, file: u32)
    requires alone { parts.old.peers.items ≡ [] }
    requires in_line { AreInLine parts.old }
    requires here { tree < vec_len parts.old.trees }
    requires lead { LeadThrough parts.old.slots.items parts.old.roots tree }
    ensures settles { SettlesFiles D.conduct H.digest (is_other file) tree
        parts.old parts.new }
    ensures log { parts.new.log ≡ parts.old.log }
    ensures rest { KeepsRest parts.old parts.new }
    ensures in_line { AreInLine parts.new }
{
    let mut other = parts.roots.first_files[tree];
    while (other as usize) < parts.slots.len() {
        if other != file {
            settle_file(parts, tree, other);
        }
        other = parts.roots.next_files[other as usize];
    }
}

/// Settles all blocks of a file, where it is of the tree.
fn settle_file<D: Disk + Drop, H: NodeHash>(parts: &mut Parts<D, H>, tree: usize, file: u32)
    requires alone { parts.old.peers.items ≡ [] }
    requires in_line { AreInLine parts.old }
    requires inside { file < vec_len parts.old.slots }
    requires here { tree < vec_len parts.old.trees }
    ensures settles { SettlesFiles D.conduct H.digest (λ other. other == file) tree
        parts.old parts.new }
    ensures log { parts.new.log ≡ parts.old.log }
    ensures rest { KeepsRest parts.old parts.new }
    ensures in_line { AreInLine parts.new }
{
    if !is_due(&parts.slots[file as usize], tree) {
        return;
    }
    let slot = &mut parts.slots[file as usize];
    leave_out(
        &parts.torrent,
        slot,
        file,
        &mut parts.book,
        &mut parts.counts,
    );
    let Some(store) = &mut slot.store else {
        unreachable!();
    };
    let blocks = store.geometry().blocks();
    store.settle(&parts.trees[tree], 0, blocks).unwrap();
    count_in(
        &parts.torrent,
        slot,
        file,
        BlockState::Marked,
        &mut parts.book,
        &mut parts.counts,
    );
}

/// Whether a file is of the tree and has a block that waits.
pub(crate) fn is_due<D: Disk + Drop, H: NodeHash>(slot: &Slot<D, H>, tree: usize) -> bool
    ensures { IsTrue result ↔ IsDue tree slot.now }
{
    match &slot.store {
        Some(store) => slot.tree as usize == tree && store.waiting() > 0,
        None => false,
    }
}
