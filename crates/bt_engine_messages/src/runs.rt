//! The blocks of a run are settled in every file of a tree; how many notes that can make is counted before.
ghost use Rattle.std.specs.Prelude.{◌≡◌, ◌+◌, ◌*◌, ◌<◌, ◌≤◌, ◌++◌, false, List, length, map, sum_by};
ghost use Rattle.std.specs.List.{All};
ghost use Rattle.std.specs.Vec.{vec_len, vec_capacity};
ghost use Rattle.bt_meta.specs.Limits.{max_file_count};
ghost use Rattle.bt_sparse.specs.Answer.{max_run_length};
ghost use Rattle.bt_store.specs.BlockReads.{BlockRead};
ghost use Rattle.bt_machine.specs.Settling.{settling_notes};
ghost use Rattle.bt_engine_state.specs.Parts.{file_of};
ghost use Rattle.bt_engine_state.specs.Roots.{LeadThrough};
ghost use Rattle.bt_engine_state.specs.Ties.{NoneWaits};
ghost use Rattle.bt_engine_messages.specs.NoteRooms.{slot_room};
ghost use Rattle.bt_engine_messages.specs.RunSteps.{SettlesSlot, SettlesSlots, FitsLength};

use crate::settling::settle_blocks;
use bt_disk::Disk;
use bt_engine_state::{Roots, Slot};
use bt_machine::Note;
use bt_sparse::SparseTree;
use bt_tree::NodeHash;

/// Settles the blocks of a run in every file of a tree, in the order of files, and adds the notes of each,
/// for which there is room. No other file is looked at, and none where no block waits in any (`waits`).
pub(crate) fn settle_slots<D: Disk + Drop, H: NodeHash>(
    notes: &mut Vec<Note>,
    slots: &mut [Slot<D, H>],
    roots: &Roots,
    tree: &SparseTree<H>,
    index: usize,
    from: u32,
    count: u32,
    waits: bool,
)
    requires lead { LeadThrough slots.old roots.now index }
    requires idle { waits ≡ false → NoneWaits (map file_of slots.old) }
    requires fits { All (FitsLength tree.now index) slots.old }
    requires files { length slots.old ≤ max_file_count }
    requires few { count ≤ max_run_length }
    requires room { vec_len notes.old + sum_by (slot_room index count) slots.old
        ≤ vec_capacity notes.old }
    ensures settles { SettlesSlots D.conduct H.digest tree.now index from count slots.old
        notes.old.items notes.new.items slots.new }
    ensures few { vec_len notes.new ≤ vec_len notes.old + sum_by (slot_room index count) slots.old }
{
    if !waits {
        return;
    }
    let mut file = roots.first_files[index] as usize;
    while file < slots.len() {
        settle_slot(
            notes,
            file as u32,
            &mut slots[file],
            tree,
            index,
            from,
            count,
        );
        file = roots.next_files[file] as usize;
    }
}

/// Settles the blocks of a run in one file, where it is of the tree.
fn settle_slot<D: Disk + Drop, H: NodeHash>(
    notes: &mut Vec<Note>,
    file: u32,
    slot: &mut Slot<D, H>,
    tree: &SparseTree<H>,
    index: usize,
    from: u32,
    count: u32,
)
    requires fits { FitsLength tree.now index slot.old }
    requires few { count ≤ max_run_length }
    requires room { vec_len notes.old + slot_room index count slot.old ≤ vec_capacity notes.old }
    ensures settles { (reads : List BlockRead)
        × SettlesSlot D.conduct H.digest tree.now index from count slot.old reads slot.new
        × (notes.new.items ≡ notes.old.items ++ settling_notes H.digest tree.now file reads) }
    ensures few { vec_len notes.new ≤ vec_len notes.old + slot_room index count slot.old }
    ensures capacity { vec_capacity notes.old ≤ vec_capacity notes.new }
{
    if slot.tree as usize != index {
        return;
    }
    let Some(store) = &mut slot.store else {
        return;
    };
    let blocks = store.geometry().blocks();
    if from < blocks {
        settle_blocks(notes, file, store, tree, from, count.min(blocks - from));
    }
}

/// How many notes there are at most of the files of a tree. No other file is looked at, and none where no block
/// waits in any (`waits`).
pub(crate) fn room_for<D: Disk + Drop, H: NodeHash>(
    slots: &[Slot<D, H>],
    roots: &Roots,
    index: usize,
    count: u32,
    waits: bool,
) -> usize
    requires lead { LeadThrough slots.now roots.now index }
    requires idle { waits ≡ false → NoneWaits (map file_of slots.now) }
    requires files { length slots.now ≤ max_file_count }
    requires few { count ≤ max_run_length }
    ensures value { result ≡ sum_by (slot_room index count) slots.now }
    ensures small { result ≤ (max_run_length + 1) * length slots.now }
{
    if !waits {
        return 0;
    }
    let mut room = 0;
    let mut file = roots.first_files[index] as usize;
    while file < slots.len() {
        room += slot_room(&slots[file], index, count);
        file = roots.next_files[file] as usize;
    }
    room
}

/// How many notes there are at most of a file: none where no block waits, else one more than blocks, for the
/// device.
fn slot_room<D: Disk + Drop, H: NodeHash>(slot: &Slot<D, H>, index: usize, count: u32) -> usize
    requires { count ≤ max_run_length }
    ensures value { result ≡ slot_room index count slot.now }
    ensures few { result ≤ max_run_length + 1 }
{
    match &slot.store {
        Some(store) if slot.tree as usize == index => {
            let blocks = count.min(store.waiting()) as usize;
            blocks + blocks.min(1)
        }
        _ => 0,
    }
}
