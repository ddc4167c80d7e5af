//! Devices of bytes, of each kind.
ghost use Rattle.std.specs.Prelude.{◌<◌, ◌-◌, ◌^◌};
ghost use Rattle.std.specs.Bool.{OnTrue};

use crate::bytes::{tell_bytes, tell_whether};
use crate::calls::call_row;
use crate::shop::Shop;
use crate::system::{System, SystemFile};
use bt_devices::{Seal, SealedDisk};
use bt_disk::{FaultDisk, FileDisk, Loss, MemoryDisk, Opening, PooledDisk};
use bt_rows::{RowError, Words, put, tell};
use std::alloc::Global;
use std::fmt::Write;
use std::fs::File;
use std::mem;

#[derive(Drop)]
pub enum Device<'a> {
    Empty,
    Memory(MemoryDisk),
    Faulty(FaultDisk<MemoryDisk>),
    Sealed(SealedDisk<'a, FaultDisk<MemoryDisk>>),
    File(FileDisk<File>),
    Pooled(PooledDisk<HostRuntime>),
    SystemFile(FileDisk<SystemFile<'a>>),
    SystemPooled(PooledDisk<System<'a>>),
}

/// A new device, or a call of the one that is there.
pub fn device_row<'a>(
    device: &mut Device<'a>,
    shop: &mut Shop<'a>,
    words: &mut Words,
    out: &mut String,
) -> Result<(), RowError> {
    match words.word() {
        "file" => file_row(device, shop, words, out),
        "pooled" => pooled_row(device, shop, words, out),
        "sealed" => sealed_row(device, shop.seal, false, out),
        "closed" => sealed_row(device, shop.seal, true, out),
        name => memory_device_row(shop.alloc(), device, name, words, out),
    }
}

/// A new device in memory, or what only such devices do, or a call.
fn memory_device_row(
    alloc: Global,
    device: &mut Device<'_>,
    name: &str,
    words: &mut Words,
    out: &mut String,
) -> Result<(), RowError> {
    match name {
        "memory" => memory_row(alloc, device, false, words, out),
        "faulty" => memory_row(alloc, device, true, words, out),
        "crash" => crash_row(device, words, out),
        "image" => image_row(alloc, device, words, out),
        "set" => setting_row(device, words, out),
        "bytes" => bytes_row(alloc, device, out),
        "opening" => opening_row(device, out),
        "assume" => assume_row(device, out),
        _ => any_call_row(alloc, device, name, words, out),
    }
}

/// A device in memory, with these bytes, as it is or inside of a device of faults.
fn memory_row(
    alloc: Global,
    device: &mut Device<'_>,
    is_faulty: bool,
    words: &mut Words,
    out: &mut String,
) -> Result<(), RowError> {
    let bytes = words.bytes(alloc)?;
    put(device, in_memory(alloc, bytes, is_faulty));
    tell(out, "a device")
}

fn in_memory<'a>(alloc: Global, bytes: Vec<u8>, is_faulty: bool) -> Device<'a> {
    let disk = MemoryDisk::new(alloc, bytes);
    if is_faulty {
        Device::Faulty(FaultDisk::new(disk))
    } else {
        Device::Memory(disk)
    }
}

/// A file that is opened. The device that was there is gone before.
fn file_row<'a>(
    device: &mut Device<'a>,
    shop: &Shop<'a>,
    words: &mut Words,
    out: &mut String,
) -> Result<(), RowError> {
    put(device, Device::Empty);
    let made = shop.file(words)?;
    put_made(device, made, out)
}

/// A file of the pool.
fn pooled_row<'a>(
    device: &mut Device<'a>,
    shop: &mut Shop<'a>,
    words: &mut Words,
    out: &mut String,
) -> Result<(), RowError> {
    put(device, Device::Empty);
    let made = shop.pooled(words)?;
    put_made(device, made, out)
}

fn put_made<'a>(
    device: &mut Device<'a>,
    made: Device<'a>,
    out: &mut String,
) -> Result<(), RowError> {
    let is_empty = matches!(made, Device::Empty);
    put(device, made);
    tell_whether(out, is_empty, "fault", "a device")
}

/// The device, of which the place is empty then.
pub fn taken<'a>(place: &mut Device<'a>) -> Device<'a> {
    mem::replace(place, Device::Empty)
}

/// The device in memory, of which the place is empty then. Another one stays.
fn taken_memory(place: &mut Device<'_>) -> Result<MemoryDisk, RowError> {
    match taken(place) {
        Device::Memory(disk) => Ok(disk),
        other => {
            put(place, other);
            Err(RowError::Unread)
        }
    }
}

/// The device of faults, of which the place is empty then. Another one stays.
pub fn taken_faulty(place: &mut Device<'_>) -> Result<FaultDisk<MemoryDisk>, RowError> {
    match taken(place) {
        Device::Faulty(disk) => Ok(disk),
        other => {
            put(place, other);
            Err(RowError::Unread)
        }
    }
}

/// What a crash leaves of a device in memory, which keeps what was not synced, or fills it with a byte.
fn crash_row(device: &mut Device<'_>, words: &mut Words, out: &mut String) -> Result<(), RowError> {
    let loss = loss_from(words)?;
    let disk = taken_memory(device)?;
    put(device, crashed(disk, loss));
    tell(out, "crashed")
}

fn crashed<'a>(disk: MemoryDisk, loss: Loss) -> Device<'a> {
    Device::Memory(disk.after_crash(loss))
}

/// The bytes that a crash would leave of a device in memory, also inside of one of faults.
fn image_row(
    alloc: Global,
    device: &Device<'_>,
    words: &mut Words,
    out: &mut String,
) -> Result<(), RowError> {
    let loss = loss_from(words)?;
    match device {
        Device::Memory(disk) => tell_image(alloc, out, disk, loss),
        Device::Faulty(disk) => tell_image(alloc, out, disk.inner(), loss),
        _ => Err(RowError::Unread),
    }
}

fn tell_image(
    alloc: Global,
    out: &mut String,
    disk: &MemoryDisk,
    loss: Loss,
) -> Result<(), RowError> {
    let image = disk.image(loss)?;
    tell_bytes(alloc, out, &image)
}

fn loss_from(words: &mut Words) -> Result<Loss, RowError> {
    let word = words.word();
    if word == "kept" {
        return Ok(Loss::Kept);
    }
    match word.parse::<u8>() {
        Ok(byte) => Ok(Loss::Filled(byte)),
        Err(_) => Err(RowError::Unread),
    }
}

/// A setting of a device of faults: its call fails, all calls from it on fail, or from it on the byte at a place
/// is read with its low bit changed.
#[derive(Clone, Copy)]
enum Kind {
    Once,
    From,
    Flip(u64),
}

fn kind_of(name: &str, words: &mut Words) -> Result<Kind, RowError> {
    match name {
        "once" => Ok(Kind::Once),
        "from" => Ok(Kind::From),
        "flip" => Ok(Kind::Flip(words.long()?)),
        _ => Err(RowError::Unread),
    }
}

fn setting_row(
    device: &mut Device<'_>,
    words: &mut Words,
    out: &mut String,
) -> Result<(), RowError> {
    let name = words.word();
    let call = words.long()?;
    let kind = kind_of(name, words)?;
    set_fault(device, kind, call)?;
    tell(out, "set")
}

fn set_fault(device: &mut Device<'_>, kind: Kind, call: u64) -> Result<(), RowError> {
    if !is_call(call) {
        return Err(RowError::Unread);
    }
    let disk = taken_faulty(device)?;
    put(device, with_setting(disk, kind, call));
    Ok(())
}

/// Whether a call may have this number: from 1 to 2^64 - 2.
fn is_call(call: u64) -> bool
    ensures some { OnTrue result (0 < call) }
    ensures within { OnTrue result (call < 2 ^ 64 - 1) }
{
    0 < call && call < u64::MAX
}

fn with_setting<'a>(disk: FaultDisk<MemoryDisk>, kind: Kind, call: u64) -> Device<'a>
    requires some { 0 < call }
    requires within { call < 2 ^ 64 - 1 }
{
    Device::Faulty(match kind {
        Kind::Once => disk.failing_once(call),
        Kind::From => disk.failing_from(call),
        Kind::Flip(place) => disk.flipping(call, place),
    })
}

/// The bytes of a device in memory, also inside of one of faults.
fn bytes_row(alloc: Global, device: &Device<'_>, out: &mut String) -> Result<(), RowError> {
    match device {
        Device::Memory(disk) => tell_bytes(alloc, out, disk.bytes()),
        Device::Faulty(disk) => tell_bytes(alloc, out, disk.inner().bytes()),
        _ => Err(RowError::Unread),
    }
}

/// Puts a device of faults inside of one that is closed to writes with the seal, or from its making on.
fn sealed_row<'a>(
    device: &mut Device<'a>,
    seal: &'a Seal,
    is_closed: bool,
    out: &mut String,
) -> Result<(), RowError> {
    let disk = taken_faulty(device)?;
    put(device, sealed(disk, seal, is_closed));
    tell(out, "a device")
}

fn sealed<'a>(disk: FaultDisk<MemoryDisk>, seal: &'a Seal, is_closed: bool) -> Device<'a> {
    if is_closed {
        Device::Sealed(SealedDisk::closed(disk, seal))
    } else {
        Device::Sealed(SealedDisk::new(disk, seal))
    }
}

/// What the system told of a file when it was opened.
fn opening_row(device: &Device<'_>, out: &mut String) -> Result<(), RowError> {
    match device {
        Device::File(disk) => tell_opening(disk.opening(), out),
        Device::SystemFile(disk) => tell_opening(disk.opening(), out),
        Device::Pooled(disk) => tell_opening(disk.opening(), out),
        Device::SystemPooled(disk) => tell_opening(disk.opening(), out),
        _ => Err(RowError::Unread),
    }
}

fn tell_opening(opening: Opening, out: &mut String) -> Result<(), RowError> {
    let len = opening.len;
    write!(out, "{len} bytes, ")?;
    tell_whether(out, opening.was_made, "made, ", "not made, ")?;
    tell_whether(
        out,
        opening.identity.is_some(),
        "known apart",
        "not known apart",
    )
}

/// A file of a pool counts as synced from here on.
fn assume_row(device: &mut Device<'_>, out: &mut String) -> Result<(), RowError> {
    let assumed = match taken(device) {
        Device::Pooled(disk) => Device::Pooled(disk.assume_synced()),
        Device::SystemPooled(disk) => Device::SystemPooled(disk.assume_synced()),
        other => other,
    };
    put(device, assumed);
    tell(out, "assumed")
}

fn any_call_row(
    alloc: Global,
    device: &mut Device<'_>,
    name: &str,
    words: &mut Words,
    out: &mut String,
) -> Result<(), RowError> {
    match device {
        Device::Empty => Err(RowError::Unread),
        Device::Memory(disk) => call_row(alloc, disk, name, words, out),
        Device::Faulty(disk) => call_row(alloc, disk, name, words, out),
        Device::Sealed(disk) => call_row(alloc, disk, name, words, out),
        Device::File(disk) => call_row(alloc, disk, name, words, out),
        Device::Pooled(disk) => call_row(alloc, disk, name, words, out),
        Device::SystemFile(disk) => call_row(alloc, disk, name, words, out),
        Device::SystemPooled(disk) => call_row(alloc, disk, name, words, out),
    }
}
