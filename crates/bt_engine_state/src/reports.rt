//! What an engine tells of itself: how far a file is, whether all are complete, how many peers are connected,
//! and the device of a file.
ghost use Rattle.std.specs.Prelude.{◌≡◌, slice_get};
ghost use Rattle.std.specs.Option.{option_and_then, option_copied};
ghost use Rattle.std.specs.List.{list_all};
ghost use Rattle.bt_store.specs.BlockStates.{is_marked};
ghost use Rattle.bt_machine.specs.Report.{report as file_report, report_of, all_complete, peer_count as count_of_peers};
ghost use Rattle.bt_engine_state.specs.Parts.{state_of, disks_of, file_of};
ghost use Rattle.bt_engine_state.specs.Ties.{HasAllStates};
ghost use Rattle.bt_engine_state.specs.Handling.{AreInShape};

use crate::parts::Parts;
use crate::slot::Slot;
use bt_disk::Disk;
use bt_machine::FileReport;
use bt_tree::NodeHash;

/// How far a file is, in constant time; None where there is no such file.
pub fn report<D: Disk + Drop, H: NodeHash>(parts: &Parts<D, H>, file: u32) -> Option<FileReport>
    requires { AreInShape parts.now }
    ensures { result ≡ file_report (state_of parts.now) file }
{
    let slots = parts.slots.as_slice();
    let Some(slot) = slots.get(file as usize) else {
        return None;
    };
    Some(report_slot(slot))
}

fn report_slot<D: Disk + Drop, H: NodeHash>(slot: &Slot<D, H>) -> FileReport
    requires { HasAllStates slot.now }
    ensures { result ≡ report_of (file_of slot.now) }
{
    match &slot.store {
        Some(store) => FileReport {
            blocks: store.geometry().blocks(),
            marked: store.marked(),
            waiting: store.waiting(),
            complete: store.is_complete(),
        },
        None => FileReport {
            blocks: 0,
            marked: 0,
            waiting: 0,
            complete: true,
        },
    }
}

/// Whether all files are complete. It looks at one number for each file, from the last on: while they are fetched, the
/// last are missing longest.
pub fn is_complete<D: Disk + Drop, H: NodeHash>(parts: &Parts<D, H>) -> bool
    ensures { result ≡ all_complete (state_of parts.now) }
{
    let slots = parts.slots.as_slice();
    for index in (0..slots.len()).rev() {
        if !is_slot_complete(&slots[index]) {
            return false;
        }
    }
    true
}

fn is_slot_complete<D: Disk + Drop, H: NodeHash>(slot: &Slot<D, H>) -> bool
    ensures { result ≡ list_all is_marked (file_of slot.now).states }
{
    match &slot.store {
        Some(store) => store.is_complete(),
        None => true,
    }
}

/// How many peers are connected.
pub fn peer_count<D: Disk + Drop, H: NodeHash>(parts: &Parts<D, H>) -> usize
    ensures { result ≡ count_of_peers (state_of parts.now) }
{
    parts.peers.as_slice().len()
}

/// The device of a file; None where the file is empty, and where there is no such file.
pub fn disk<D: Disk + Drop, H: NodeHash>(parts: &Parts<D, H>, file: u32) -> Option<&D>
    ensures { option_copied result ≡ option_and_then (λ disk. disk)
        (slice_get (disks_of parts.now) file) }
{
    let slots = parts.slots.as_slice();
    let slot = slots.get(file as usize)?;
    match &slot.store {
        Some(store) => Some(store.disk()),
        None => None,
    }
}
