//! The devices that a script names.
ghost use Rattle.std.specs.Prelude.{◌≡◌, List, map, IfOk, Option};
ghost use Rattle.std.specs.Bool.{OnTrue, OnFalse};
ghost use Rattle.bt_meta.specs.Files.{file_of};
ghost use Rattle.bt_replay.specs.Devices.{Device as Told, Sets, first_device, set_file, with_setting, zero_device};
ghost use Rattle.bt_replay.specs.DevicesSteps.{HasLawfulCall};

use crate::line::Line;
use bt_disk::{FaultDisk, MemoryDisk};
use bt_meta::FileEntry;
use std::alloc::{AllocError, Global};

/// A device in memory that fails, or alters what it reads, where it is told to.
pub(crate) type Device = FaultDisk<MemoryDisk>;

/// A device of zeros for each file that has a byte, and none for an empty one. Errors: out of memory.
pub(crate) fn first_devices(
    alloc: Global,
    files: &[FileEntry],
) -> Result<Vec<Option<Device>>, AllocError>
    ensures { IfOk result (λ devices. devices.items ≡ map first_device (map file_of files.now)) }
{
    let mut devices = Vec::new(alloc);
    for file in files {
        devices.push(first_device(alloc, file)?)?;
    }
    Ok(devices)
}

fn first_device(alloc: Global, file: &FileEntry) -> Result<Option<Device>, AllocError>
    ensures { IfOk result (λ device. device ≡ first_device (file_of file.now)) }
{
    let length = file.length;
    if length == 0 {
        return Ok(None);
    }
    Ok(Some(zero_device(alloc, length)?))
}

/// A device of `length` zeros.
pub(crate) fn zero_device(alloc: Global, length: u64) -> Result<Device, AllocError>
    ensures { IfOk result (λ device. device ≡ zero_device length) }
{
    let zeros = vec![in alloc; 0; length as usize]?;
    Ok(FaultDisk::new(MemoryDisk::new(alloc, zeros)))
}

/// Makes the setting that a line asks for. False where it asks for none, or its file has no device; nothing
/// changed then.
pub(crate) fn set_device(devices: &mut Vec<Option<Device>>, line: &Line) -> bool
    requires { HasLawfulCall line.now }
    ensures set { OnTrue result (Sets devices.old.items line.now devices.new.items) }
    ensures unset { OnFalse result ((new : List (Option Told))
        → ¬ Sets devices.old.items line.now new) }
    ensures kept { OnFalse result (devices.new.items ≡ devices.old.items) }
{
    let Some(file) = set_file(line) else {
        return false;
    };
    let Some(slot) = devices.get_mut(file as usize) else {
        return false;
    };
    match slot.take() {
        Some(device) => {
            *slot = Some(with_setting(line, device));
            true
        }
        None => false,
    }
}

/// The file whose device a line sets.
fn set_file(line: &Line) -> Option<u32>
    ensures { result ≡ set_file line.now }
{
    match line {
        Line::Fault { file, .. } | Line::Flip { file, .. } => Some(*file),
        _ => None,
    }
}

fn with_setting(line: &Line, device: Device) -> Device
    requires { HasLawfulCall line.now }
    ensures { result ≡ with_setting line.now device }
{
    match line {
        Line::Fault { call, .. } => device.failing_once(*call),
        Line::Flip { call, at, .. } => device.flipping(*call, *at),
        _ => device,
    }
}
