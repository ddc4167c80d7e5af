//! The blocks that wait in the other files of a tree. Where their marks are to be left for a log, they are
//! listed before they are settled, and room is made for all hints that their marks may take.
ghost use Rattle.std.specs.Prelude.{[], ◌≡◌, ◌<◌, ◌≤◌, ◌+◌, ◌++◌, ◌^◌, IfOk, OnOk, OnErr, filter, flat_map, map, length, is_some, true, if◌then◌else◌};
ghost use Rattle.bt_store.specs.Review.{is_marked_at};
ghost use Rattle.bt_machine.specs.Hints.{mark_of, add_hints};
ghost use Rattle.bt_machine.specs.Blocks.{block_id};
ghost use Rattle.bt_engine_state.specs.Parts.{state_of, file_of, pending_of};
ghost use Rattle.bt_engine_state.specs.Roots.{LeadThrough};
ghost use Rattle.bt_engine_after.specs.GroupSteps.{log_in};
ghost use Rattle.bt_engine_after.specs.MarksSteps.{marks_in, run_blocks, AreRuns, most_hints};
ghost use Rattle.bt_engine_after.specs.WaitingSteps.{room_in, OnlyPendingChanges, is_marked_among, waiting_blocks_in, waiting_in_others, listed_in, listed_blocks, AreListed, most_hints_of_all};

use crate::marks::{FileRun, Kind, most_hints, push_marked_in, runs_of};
use crate::settling::is_due;
use bt_disk::Disk;
use bt_engine_state::{OpenLog, Parts, Pending, Roots, Slot};
use bt_tree::NodeHash;
use std::alloc::{AllocError, Global};

/// Blocks of a file, in runs.
#[derive(Drop)]
pub(crate) struct FileRuns {
    pub(crate) file: u32,
    pub(crate) runs: Vec<FileRun>,
}

/// The blocks that wait in the other files of a tree, by file and block, with room for all hints that their
/// marks may take; none without a log. Errors: out of memory, and then only the room may have grown.
pub(crate) fn list_waiting<D: Disk + Drop, H: NodeHash>(
    alloc: Global,
    parts: &mut Parts<D, H>,
    tree: usize,
    file: u32,
) -> Result<Vec<FileRuns>, AllocError>
    requires { LeadThrough parts.old.slots.items parts.old.roots tree }
    ensures blocks { IfOk result (λ listed. listed_blocks listed.items ≡ (if is_some parts.old.log
        then waiting_in_others file tree (state_of parts.old).files else [])) }
    ensures runs { IfOk result (λ listed. AreListed listed.items) }
    ensures room { IfOk result (λ listed. most_hints_of_all listed.items ≤ room_in parts.new.log) }
    ensures logged { OnErr result (is_some parts.old.log ≡ true) }
    ensures keeps { OnlyPendingChanges parts.old parts.new }
    ensures pending { pending_of parts.new.log ≡ pending_of parts.old.log }
{
    if parts.log.is_none() {
        return Ok(Vec::new(alloc));
    }
    let listed = find_waiting(alloc, &parts.slots, &parts.roots, tree, file)?;
    make_room(&mut parts.log, most_hints_of_all(&listed))?;
    Ok(listed)
}

/// Makes room for `count` more hints, where there is a log. Errors: out of memory.
fn make_room<D: Disk + Drop>(log: &mut Option<OpenLog<D>>, count: usize) -> Result<(), AllocError>
    ensures room { is_some log.old ≡ true → OnOk result (count ≤ room_in log.new) }
    ensures log { log_in log.new ≡ log_in log.old }
    ensures pending { pending_of log.new ≡ pending_of log.old }
{
    match log {
        Some(opened) => opened.pending.reserve(count),
        None => Ok(()),
    }
}

/// How many hints the marks of listed blocks take at most, whichever of them are marked.
fn most_hints_of_all(listed: &[FileRuns]) -> usize
    requires runs { AreListed listed.now }
    requires few { length listed.now ≤ 2 ^ 32 }
    ensures { result ≡ most_hints_of_all listed.now }
{
    let mut hints = 0;
    for one in listed {
        hints += most_hints(&one.runs);
    }
    hints
}

/// The blocks that wait in the other files of a tree. No file of another tree is looked at. Errors: out of
/// memory.
fn find_waiting<D: Disk + Drop, H: NodeHash>(
    alloc: Global,
    slots: &[Slot<D, H>],
    roots: &Roots,
    tree: usize,
    file: u32,
) -> Result<Vec<FileRuns>, AllocError>
    requires { LeadThrough slots.now roots.now tree }
    ensures blocks { IfOk result (λ listed.
        listed_blocks listed.items ≡ waiting_in_others file tree (map file_of slots.now)) }
    ensures runs { IfOk result (λ listed. AreListed listed.items) }
    ensures few { IfOk result (λ listed. length listed.items ≤ 2 ^ 32) }
{
    let mut listed = Vec::new(alloc);
    let mut other = roots.first_files[tree];
    while (other as usize) < slots.len() {
        if other != file {
            add_waiting(alloc, &slots[other as usize], tree, other, &mut listed)?;
        }
        other = roots.next_files[other as usize];
    }
    Ok(listed)
}

/// Puts the blocks of a file that wait after others, where it is of the tree. Errors: out of memory.
fn add_waiting<D: Disk + Drop, H: NodeHash>(
    alloc: Global,
    slot: &Slot<D, H>,
    tree: usize,
    file: u32,
    listed: &mut Vec<FileRuns>,
) -> Result<(), AllocError>
    requires { AreListed listed.old.items }
    ensures blocks { OnOk result (listed_blocks listed.new.items
        ≡ listed_blocks listed.old.items ++ map (block_id file)
        (waiting_blocks_in tree (file_of slot.now))) }
    ensures runs { OnOk result (AreListed listed.new.items) }
    ensures few { OnOk result (length listed.new.items ≤ length listed.old.items + 1) }
{
    if !is_due(slot, tree) {
        return Ok(());
    }
    let Some(store) = &slot.store else {
        unreachable!();
    };
    let blocks = store.geometry().blocks();
    let whole = FileRun {
        first: 0,
        count: blocks,
    };
    let runs = runs_of(alloc, store, whole, Kind::Waits)?;
    listed.push(FileRuns { file, runs })?;
    Ok(())
}

/// Leaves the marks of those of the listed blocks that are marked now, where there is a log.
pub(crate) fn leave_marks<D: Disk + Drop, H: NodeHash>(parts: &mut Parts<D, H>, listed: &[FileRuns])
    requires runs { AreListed listed.now }
    requires room { most_hints_of_all listed.now ≤ room_in parts.old.log }
    ensures keeps { OnlyPendingChanges parts.old parts.new }
    ensures pending { pending_of parts.new.log ≡ add_hints (pending_of parts.old.log)
        (map (λ b. mark_of b)
        (filter (is_marked_among (state_of parts.old).files) (listed_blocks listed.now))) }
{
    if let Some(opened) = &mut parts.log {
        push_settled(&parts.slots, listed, &mut opened.pending);
    }
}

/// Leaves the marks of those of the listed blocks that are marked now.
fn push_settled<D: Disk + Drop, H: NodeHash>(
    slots: &[Slot<D, H>],
    listed: &[FileRuns],
    pending: &mut Pending,
)
    requires runs { AreListed listed.now }
    requires room { most_hints_of_all listed.now ≤ pending.old.room }
    ensures { pending.new.hints ≡ add_hints pending.old.hints (map (λ b. mark_of b)
        (filter (is_marked_among (map file_of slots.now)) (listed_blocks listed.now))) }
{
    for one in listed {
        push_settled_in(slots, one, pending);
    }
}

/// Leaves the marks of those of a file's listed blocks that are marked now.
fn push_settled_in<D: Disk + Drop, H: NodeHash>(
    slots: &[Slot<D, H>],
    listed: &FileRuns,
    pending: &mut Pending,
)
    requires runs { AreRuns listed.now.runs.items }
    requires room { most_hints listed.now.runs.items ≤ pending.old.room }
    ensures hints { pending.new.hints ≡ add_hints pending.old.hints (map (λ b. mark_of b)
        (filter (is_marked_among (map file_of slots.now)) (listed_in listed.now))) }
    ensures room { pending.old.room ≤ pending.new.room + most_hints listed.now.runs.items }
{
    if let Some(slot) = slots.get(listed.file as usize) {
        push_settled_of(slot, listed.file, &listed.runs, pending);
    }
}

/// Leaves the marks of those blocks of a file's runs that are marked now.
fn push_settled_of<D: Disk + Drop, H: NodeHash>(
    slot: &Slot<D, H>,
    file: u32,
    runs: &[FileRun],
    pending: &mut Pending,
)
    requires runs { AreRuns runs.now }
    requires room { most_hints runs.now ≤ pending.old.room }
    ensures hints { pending.new.hints ≡ add_hints pending.old.hints
        (marks_in file (filter (is_marked_at (file_of slot.now).states)
        (flat_map run_blocks runs.now))) }
    ensures room { pending.old.room ≤ pending.new.room + most_hints runs.now }
{
    if let Some(store) = &slot.store {
        push_marked_in(store, file, runs, pending);
    }
}
