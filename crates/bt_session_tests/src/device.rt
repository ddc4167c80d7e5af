//! What the devices of a list of events are to be.
ghost use Rattle.std.specs.Prelude.{◌<◌, ◌-◌, ◌^◌};
ghost use Rattle.std.specs.Bool.{OnTrue};

use crate::engine::{TestDisk, memory_disk};
use bt_rows::bytes_of;
use std::alloc::{AllocError, Global};

/// What the device of a file is to be.
#[derive(Drop)]
pub struct Device {
    bytes: Vec<u8>,
    /// The call that fails.
    fault: Option<u64>,
    /// From which call on the byte at which place is read with its low bit changed.
    flip: Option<(u64, u64)>,
}

impl Device {
    pub fn of_zeros(alloc: Global, length: usize) -> Result<Self, AllocError> {
        Ok(Device {
            bytes: vec![in alloc; 0; length]?,
            fault: None,
            flip: None,
        })
    }

    /// Makes a setting: its bytes, the call that fails, or the call and the place of a flip. False where it is none.
    pub fn set(&mut self, alloc: Global, name: &str, words: &str) -> Result<bool, AllocError> {
        if name == "bytes" {
            return self.set_bytes(alloc, words);
        }
        match call_and_place(words) {
            Some((call, place)) if name == "flip" => self.flip = Some((call, place)),
            Some((call, _)) => self.fault = Some(call),
            None => return Ok(false),
        }
        Ok(true)
    }

    fn set_bytes(&mut self, alloc: Global, word: &str) -> Result<bool, AllocError> {
        match bytes_of(alloc, word)? {
            Some(bytes) => {
                self.bytes = bytes;
                Ok(true)
            }
            None => Ok(false),
        }
    }

    /// A device of this making.
    pub fn disk(&self, alloc: Global) -> Result<TestDisk, AllocError> {
        let disk = memory_disk(alloc, self.bytes.clone()?);
        Ok(flipped(faulty(disk, self.fault), self.flip))
    }

    pub fn into_disk(self, alloc: Global) -> TestDisk {
        let Device { bytes, fault, flip } = self;
        flipped(faulty(memory_disk(alloc, bytes), fault), flip)
    }
}

fn faulty(disk: TestDisk, fault: Option<u64>) -> TestDisk {
    match fault {
        Some(call) => with_fault(disk, call),
        None => disk,
    }
}

fn flipped(disk: TestDisk, flip: Option<(u64, u64)>) -> TestDisk {
    match flip {
        Some((call, place)) => with_flip(disk, call, place),
        None => disk,
    }
}

/// The disk, with its call of this number failing; where that is none, no call fails.
pub fn with_fault(disk: TestDisk, call: u64) -> TestDisk {
    if is_call(call) {
        disk.failing_once(call)
    } else {
        disk
    }
}

fn with_flip(disk: TestDisk, call: u64, place: u64) -> TestDisk {
    if is_call(call) {
        disk.flipping(call, place)
    } else {
        disk
    }
}

/// The number of a call that may fail, and a place, 0 where there is none.
fn call_and_place(words: &str) -> Option<(u64, u64)> {
    let (call, place) = words.split_once(' ').unwrap_or((words, "0"));
    match (call.parse::<u64>(), place.parse::<u64>()) {
        (Ok(call), Ok(place)) if is_call(call) => Some((call, place)),
        _ => None,
    }
}

/// Whether a call has this number: from 1 to 2^64 - 2.
fn is_call(call: u64) -> bool
    ensures some { OnTrue result (0 < call) }
    ensures within { OnTrue result (call < 2 ^ 64 - 1) }
{
    0 < call && call < u64::MAX
}
