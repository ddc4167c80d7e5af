//! Each file that has a byte gets one of the devices, in the torrent's order. Where memory is refused, all of
//! them are given back.
ghost use Rattle.std.specs.Prelude.{◌≡◌, ◌<◌, ◌≤◌, ◌++◌, [], All, length, map, None, OnOk, OnErr, vec_capacity};
ghost use Rattle.std.specs.Option.{option_to_list};
ghost use Rattle.bt_tree.specs.Limits.{max_file_length};
ghost use Rattle.bt_meta.specs.Files.{file_of};
ghost use Rattle.bt_machine.specs.Start.{device_count as count_of_devices};
ghost use Rattle.bt_engine_state.specs.Parts.{disk_of};
ghost use Rattle.bt_engine_start.specs.DeviceSteps.{devices_in, IsNewSlot, AreNewSlots};

use bt_disk::Disk;
use bt_engine_state::Slot;
use bt_meta::FileEntry;
use bt_store::FileStore;
use bt_tree::{Geometry, NodeHash};
use std::alloc::{AllocError, Global};

/// How many of the files have a byte, and so a device.
pub(crate) fn device_count(files: &[FileEntry]) -> usize
    ensures { result ≡ count_of_devices (map file_of files.now) }
{
    files.iter().filter(|file| 0 < file.length).count()
}

/// Gives each file that has a byte its device, and makes all its blocks missing. No call of a device is made.
/// Where memory is refused, all devices are back, in their order.
pub(crate) fn hand_out<D: Disk + Drop, H: NodeHash>(
    alloc: Global,
    hash: H,
    files: &[FileEntry],
    slots: &mut [Slot<D, H>],
    disks: &mut Vec<D>,
) -> Result<(), AllocError>
    requires count { length slots.old ≡ length files.now }
    requires short { All (λ file. file.length ≤ max_file_length) files.now }
    requires bare { All (λ slot. slot.store ≡ None) slots.old }
    requires enough { length disks.old.items ≡ count_of_devices (map file_of files.now) }
    ensures slots { OnOk result (AreNewSlots (map file_of files.now) slots.new) }
    ensures trees { OnOk result (map (λ slot. slot.tree) slots.new ≡ map
        (λ slot. slot.tree) slots.old) }
    ensures devices { OnOk result (devices_in slots.new ≡ disks.old.items) }
    ensures refused { OnErr result (disks.new.items ≡ disks.old.items) }
{
    let filled = fill_slots(alloc, hash, files, slots, disks);
    if filled.is_err() {
        take_back(slots, disks);
    }
    filled
}

/// The last file is first, so that the devices that are left are those of the files before, and there is room
/// for one that is given back.
fn fill_slots<D: Disk + Drop, H: NodeHash>(
    alloc: Global,
    hash: H,
    files: &[FileEntry],
    slots: &mut [Slot<D, H>],
    disks: &mut Vec<D>,
) -> Result<(), AllocError>
    requires count { length slots.old ≡ length files.now }
    requires short { All (λ file. file.length ≤ max_file_length) files.now }
    requires bare { All (λ slot. slot.store ≡ None) slots.old }
    requires enough { length disks.old.items ≡ count_of_devices (map file_of files.now) }
    ensures slots { OnOk result (AreNewSlots (map file_of files.now) slots.new) }
    ensures trees { map (λ slot. slot.tree) slots.new ≡ map (λ slot. slot.tree) slots.old }
    ensures spent { OnOk result (disks.new.items ≡ []) }
    ensures devices { disks.new.items ++ devices_in slots.new ≡ disks.old.items }
    ensures capacity { vec_capacity disks.old ≤ vec_capacity disks.new }
{
    for index in (0..files.len()).rev() {
        fill_slot(alloc, hash, &files[index], &mut slots[index], disks)?;
    }
    Ok(())
}

/// Gives a file the last of the devices, where it has a byte.
fn fill_slot<D: Disk + Drop, H: NodeHash>(
    alloc: Global,
    hash: H,
    file: &FileEntry,
    slot: &mut Slot<D, H>,
    disks: &mut Vec<D>,
) -> Result<(), AllocError>
    requires short { file.now.length ≤ max_file_length }
    requires bare { slot.old.store ≡ None }
    requires enough { 0 < file.now.length → 0 < length disks.old.items }
    ensures slot { OnOk result (IsNewSlot (file_of file.now) slot.new) }
    ensures tree { slot.new.tree ≡ slot.old.tree }
    ensures devices { disks.new.items ++ option_to_list (disk_of slot.new) ≡ disks.old.items }
    ensures capacity { vec_capacity disks.old ≤ vec_capacity disks.new }
{
    let Some(geometry) = Geometry::new(file.length) else {
        return Ok(());
    };
    let Some(disk) = disks.pop() else {
        unreachable!()
    };
    match FileStore::create(alloc, disk, hash, geometry) {
        Ok(store) => {
            slot.store = Some(store);
            Ok(())
        }
        Err(refused) => {
            // There is the room that it had.
            let _ = disks.push(refused.disk);
            Err(AllocError)
        }
    }
}

/// Puts the devices that files have after those that are left, in the files' order.
fn take_back<D: Disk + Drop, H: NodeHash>(slots: &mut [Slot<D, H>], disks: &mut Vec<D>)
    requires room { length (disks.old.items ++ devices_in slots.old) ≤ vec_capacity disks.old }
    ensures { disks.new.items ≡ disks.old.items ++ devices_in slots.old }
{
    for slot in slots.iter_mut() {
        let Some(store) = slot.store.take() else {
            continue;
        };
        let _ = disks.push(store.into_disk());
    }
}
