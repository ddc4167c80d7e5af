//! Many files that share a few open handles.
ghost use Rattle.std.specs.Prelude.{◌<◌};

use crate::shop::Shop;
use bt_disk::{DeviceFault, Disk, HandlePool, PooledDisk};
use bt_rows::{RowError, Words, tell};
use std::alloc::AllocError;

/// As many files of the folder as the row says, each with a byte of its own at the place of its number, in a
/// pool of as many handles as a word says: whether each gives its byte, in turn and then at random. The pool is
/// dropped before.
pub fn many_row(shop: &Shop, words: &mut Words, out: &mut String) -> Result<(), RowError> {
    let count = words.number()?;
    let limit = words.number()? as usize;
    if limit == 0 {
        return Err(RowError::Unread);
    }
    let mut disks = made(shop, count, limit)?;
    tell(out, outcome(&mut disks, count))
}

/// What becomes of reading them.
fn outcome<D: Disk>(disks: &mut [D], count: u32) -> &'static str {
    if !all_read_back(disks, count) {
        return "not read back in turn";
    }
    if !some_read_back(disks, count) {
        return "not read back at random";
    }
    "all read back"
}

/// The devices, up to the first that fails.
fn made(shop: &Shop, count: u32, limit: usize) -> Result<Vec<PooledDisk<HostRuntime>>, AllocError>
    requires { 0 < limit }
{
    let mut pool = HandlePool::new(shop.alloc(), shop.host.clone()?, limit)?;
    let mut disks = Vec::new(shop.alloc());
    for number in 0..count {
        push_made(shop, &mut pool, &mut disks, number)?;
    }
    Ok(disks)
}

fn push_made(
    shop: &Shop,
    pool: &mut HandlePool<HostRuntime>,
    disks: &mut Vec<PooledDisk<HostRuntime>>,
    number: u32,
) -> Result<(), AllocError> {
    let path = shop.numbered(number)?;
    match with_byte(pool, path, number) {
        Ok(disk) => Ok(disks.push(disk)?),
        Err(_) => Ok(()),
    }
}

fn with_byte(
    pool: &mut HandlePool<HostRuntime>,
    path: String,
    number: u32,
) -> Result<PooledDisk<HostRuntime>, DeviceFault> {
    let mut disk = pool.writing(path)?;
    put_byte(&mut disk, number)?;
    Ok(disk)
}

/// Writes the byte of a number, at the place of that number.
fn put_byte<D: Disk>(disk: &mut D, number: u32) -> Result<(), DeviceFault> {
    disk.write_at(number as u64, &[(number % 251) as u8])
}

/// Whether the byte of a number is the last one.
fn ends_in_byte<D: Disk>(disk: &mut D, number: u32) -> bool {
    let mut room = [255; 2];
    let is_read = disk.read_at(number as u64, &mut room) == Ok(1);
    is_read && room[0] == (number % 251) as u8 && disk.len() == Ok(number as u64 + 1)
}

/// Whether a device gives what was written there.
fn reads_back<D: Disk>(disks: &mut [D], number: u32) -> bool {
    match disks.get_mut(number as usize) {
        Some(disk) => ends_in_byte(disk, number),
        None => false,
    }
}

/// Whether each device does, in turn.
fn all_read_back<D: Disk>(disks: &mut [D], count: u32) -> bool {
    for number in 0..count {
        if !reads_back(disks, number) {
            return false;
        }
    }
    true
}

/// Whether as many devices, chosen at random, do.
fn some_read_back<D: Disk>(disks: &mut [D], count: u32) -> bool {
    let mut state = 1u32;
    for _ in 0..count {
        state = state.wrapping_mul(1_664_525).wrapping_add(1_013_904_223);
        if !reads_back(disks, (state >> 8) % count) {
            return false;
        }
    }
    true
}
