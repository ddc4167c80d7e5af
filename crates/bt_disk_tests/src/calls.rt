//! The five calls of a device. They are made in functions without a contract, so that no proof here carries a
//! clause of theirs.

use crate::bytes::{tell_bytes, tell_whether};
use bt_disk::{DeviceFault, Disk};
use bt_rows::{RowError, Words, tell};
use std::alloc::Global;
use std::fmt::Write;

/// A call by its name.
pub fn call_row<D: Disk>(
    alloc: Global,
    disk: &mut D,
    name: &str,
    words: &mut Words,
    out: &mut String,
) -> Result<(), RowError> {
    match name {
        "write" => write_row(alloc, disk, words, out),
        "read" => read_row(alloc, disk, words, out),
        "cut" => cut_row(disk, words, out),
        "len" => len_row(disk, out),
        "sync" => sync_row(disk, out),
        _ => Err(RowError::Unread),
    }
}

/// Whether a call was made.
pub fn tell_done(out: &mut String, made: Result<(), DeviceFault>) -> Result<(), RowError> {
    tell_whether(out, made.is_ok(), "done", "fault")
}

fn write_row<D: Disk>(
    alloc: Global,
    disk: &mut D,
    words: &mut Words,
    out: &mut String,
) -> Result<(), RowError> {
    let at = words.long()?;
    let bytes = words.bytes(alloc)?;
    tell_done(out, disk.write_at(at, &bytes))
}

fn cut_row<D: Disk>(disk: &mut D, words: &mut Words, out: &mut String) -> Result<(), RowError> {
    let len = words.long()?;
    tell_done(out, disk.set_len(len))
}

fn sync_row<D: Disk>(disk: &mut D, out: &mut String) -> Result<(), RowError> {
    tell_done(out, disk.sync())
}

fn len_row<D: Disk>(disk: &mut D, out: &mut String) -> Result<(), RowError> {
    match disk.len() {
        Ok(len) => Ok(write!(out, "{len}")?),
        Err(_) => tell(out, "fault"),
    }
}

/// Reads at a place, into at most 64 bytes, each of which is a nine before.
fn read_row<D: Disk>(
    alloc: Global,
    disk: &mut D,
    words: &mut Words,
    out: &mut String,
) -> Result<(), RowError> {
    let at = words.long()?;
    let wanted = words.number()? as usize;
    let mut room = [9; 64];
    match disk.read_at(at, &mut room[..wanted.min(64)]) {
        Ok(count) => tell_front(alloc, out, &room, count),
        Err(_) => tell(out, "fault"),
    }
}

/// Tells the bytes that came, and whether one after them is no nine.
fn tell_front(alloc: Global, out: &mut String, room: &[u8], count: usize) -> Result<(), RowError> {
    if count > room.len() {
        return tell(out, "more than there is room for");
    }
    let (front, rest) = room.split_at(count);
    tell_bytes(alloc, out, front)?;
    tell_whether(out, are_nines(rest), "", ", and others are changed")
}

fn are_nines(bytes: &[u8]) -> bool {
    for byte in bytes {
        if *byte != 9 {
            return false;
        }
    }
    true
}
