//! Blocks that are read ahead, of what a peer sends and of a device.

use crate::bytes::tell_given;
use crate::notes::{Notes, Untold};
use bt_connection::{AheadRoom, Observer, ReadAhead};
use bt_devices::{DigestCache, ReadAheadDisk};
use bt_disk::{Disk, FaultDisk, MemoryDisk};
use bt_rows::{RowError, Words, whole_answer};
use bt_tree::BLOCK_LEN;
use std::alloc::{AllocError, Global};
use std::cell::{Cell, RefCell};
use std::fmt::Write;
use std::io::{self, Read};

/// How many bytes are read at once at most.
const MOST_READ: usize = 0x1_0000;

/// Adds what a row answers. What is no row says so.
pub fn ahead_row(alloc: Global, row: &str, out: &mut String) -> Result<(), AllocError> {
    let mut words = Words::new(row);
    let answer = answer_of(alloc, &mut words);
    let answer = whole_answer(alloc, row, &words, answer)?;
    writeln!(out, "{answer}")
}

fn answer_of(alloc: Global, words: &mut Words) -> Result<String, RowError> {
    match words.word() {
        "read" => read_row(alloc, words, true),
        "unwanted" => read_row(alloc, words, false),
        "told" => told_row(alloc, words),
        "device" => device_row(alloc, words),
        _ => Err(RowError::Unread),
    }
}

/// Bytes, how many of them a read gives at most, and how many it gave.
#[derive(Drop)]
struct Parts<'a> {
    rest: &'a [u8],
    most: usize,
    given: &'a Cell<usize>,
}

impl Read for Parts<'_> {
    fn read(&mut self, buffer: &mut [u8]) -> io::Result<usize> {
        let most = buffer.len().min(self.most);
        let count = self.rest.read(&mut buffer[..most])?;
        self.given.set(self.given.get().saturating_add(count));
        Ok(count)
    }
}

/// What a reader gives that reads ahead, and for which bytes a block of them alone has a digest at the end. A digest is wanted before,
/// or none is.
fn read_row(alloc: Global, words: &mut Words, wanted: bool) -> Result<String, RowError> {
    let most = words.number()? as usize;
    let room = words.number()? as usize;
    let bytes = words.bytes(alloc)?;
    digested_read(alloc, most, room, &bytes, wanted)
}

fn digested_read(
    alloc: Global,
    most: usize,
    room: usize,
    bytes: &[u8],
    wanted: bool,
) -> Result<String, RowError> {
    let digests = RefCell::new(DigestCache::new(alloc)?);
    if wanted {
        let _ = is_found(&digests, &[]);
    }
    let lent = RefCell::new(AheadRoom::new(alloc)?);
    let count = Cell::new(0);
    let parts = Parts {
        rest: bytes,
        most,
        given: &count,
    };
    let mut given = Vec::new(alloc);
    read_all(&digests, &Untold, &lent, parts, room, &mut given)?;
    let mut text = String::new(alloc);
    tell_given(alloc, &mut text, &given)?;
    tell_found(&digests, &mut text)?;
    Ok(text)
}

/// What an observer is told of bytes that come in parts, and after how many of them.
fn told_row(alloc: Global, words: &mut Words) -> Result<String, RowError> {
    let most = words.number()? as usize;
    let bytes = words.bytes(alloc)?;
    let digests = RefCell::new(DigestCache::new(alloc)?);
    let lent = RefCell::new(AheadRoom::new(alloc)?);
    let count = Cell::new(0);
    let notes = Notes::new(alloc, &count);
    let parts = Parts {
        rest: &bytes,
        most,
        given: &count,
    };
    let mut given = Vec::new(alloc);
    read_all(&digests, &notes, &lent, parts, MOST_READ, &mut given)?;
    if given.as_slice() != bytes.as_slice() {
        return Err(RowError::Failed);
    }
    notes.text(alloc)
}

/// Reads all, by reads of at most this many bytes.
fn read_all<'a, O: Observer>(
    digests: &'a RefCell<DigestCache>,
    observer: &'a O,
    lent: &'a RefCell<AheadRoom>,
    parts: Parts<'a>,
    room: usize,
    given: &mut Vec<u8>,
) -> Result<(), RowError> {
    let Ok(waiting) = lent.try_borrow_mut() else {
        return Err(RowError::Failed);
    };
    let mut reader = ReadAhead::new(parts, digests, observer, waiting);
    let mut buffer = [0; MOST_READ];
    let end = room.min(buffer.len());
    for _ in 0..u64::MAX {
        if read_once(&mut reader, &mut buffer[..end], given)? == 0 {
            break;
        }
    }
    Ok(())
}

/// Reads once, and says how many bytes that gave.
fn read_once<R: Read>(
    reader: &mut R,
    buffer: &mut [u8],
    given: &mut Vec<u8>,
) -> Result<usize, RowError> {
    let count = reader.read(buffer)?;
    given.extend_from_slice(&buffer[..count])?;
    Ok(count)
}

/// Adds for which bytes, from 1 to 9, a block of them alone has a digest.
fn tell_found(digests: &RefCell<DigestCache>, text: &mut String) -> Result<(), AllocError> {
    text.push_str(" ahead ")?;
    let len = text.len();
    for byte in 1..=9u8 {
        if is_found(digests, &[byte; BLOCK_LEN]) {
            write!(text, "{byte}")?;
        }
    }
    if text.len() == len {
        text.push_str("-")?;
    }
    Ok(())
}

/// Whether a block has a digest that was made ahead, which is wanted.
fn is_found(digests: &RefCell<DigestCache>, block: &[u8]) -> bool {
    let Ok(mut guard) = digests.try_borrow_mut() else {
        return false;
    };
    let cache = &mut *guard;
    cache.want();
    cache.find(block).is_some()
}

/// A device that is read ahead, and where the digests are put.
#[derive(Drop)]
struct Device<'a> {
    disk: ReadAheadDisk<'a, FaultDisk<MemoryDisk>>,
    digests: &'a RefCell<DigestCache>,
}

/// What comes of each read of a device of as many blocks as a word says, a call of which fails.
fn device_row(alloc: Global, words: &mut Words) -> Result<String, RowError> {
    let blocks = words.number()?.min(0xff) as u8;
    let failing = words.number()?.min(0xff) as u8;
    let digests = RefCell::new(DigestCache::new(alloc)?);
    let disk = failing_disk(alloc, blocks, failing)?;
    let mut device = Device {
        disk: ReadAheadDisk::new(disk, &digests),
        digests: &digests,
    };
    let mut text = String::new(alloc);
    device.steps(words, &mut text)?;
    Ok(text)
}

/// A device of this many blocks, the first of them all ones, the next all twos; the k-th call of it fails, or none
/// where that is 0.
fn failing_disk(
    alloc: Global,
    blocks: u8,
    failing: u8,
) -> Result<FaultDisk<MemoryDisk>, AllocError> {
    let mut bytes = Vec::new(alloc);
    for block in 0..blocks {
        bytes.extend_from_slice(&[block.wrapping_add(1); BLOCK_LEN])?;
    }
    let disk = FaultDisk::new(MemoryDisk::new(alloc, bytes));
    if failing == 0 {
        return Ok(disk);
    }
    Ok(disk.failing_once(failing as u64))
}

impl Device<'_> {
    fn steps(&mut self, words: &mut Words, text: &mut String) -> Result<(), RowError> {
        for _ in 0..u64::MAX {
            if words.is_at_end() {
                break;
            }
            let letter = self.step(words)?;
            text.push(letter)?;
        }
        Ok(())
    }

    fn step(&mut self, words: &mut Words) -> Result<char, RowError> {
        match words.word() {
            "write" => Ok(self.write()),
            "read" => {
                let block = words.number()?.min(0xff) as u8;
                let len = words.number()? as usize;
                Ok(self.read(block, len))
            }
            _ => Err(RowError::Unread),
        }
    }

    /// Writes no byte.
    fn write(&mut self) -> char {
        match self.disk.write_at(0, &[]) {
            Ok(()) => 'w',
            Err(_) => 'x',
        }
    }

    /// Reads `len` bytes from a block's beginning on: `a` where its digest was made ahead, `-` where it was not.
    fn read(&mut self, block: u8, len: usize) -> char {
        let mut bytes = [0; MOST_READ];
        let end = len.min(bytes.len());
        let part = &mut bytes[..end];
        let at = block as u64 * BLOCK_LEN as u64;
        match self.disk.read_at(at, part) {
            Ok(count) if is_found(self.digests, &part[..count]) => 'a',
            Ok(_) => '-',
            Err(_) => 'x',
        }
    }
}
