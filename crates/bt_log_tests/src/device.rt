//! The devices of rows: in memory, or so long that nothing of them is kept.
ghost use Rattle.std.specs.Prelude.{◌≡◌, ◌≤◌, [], length, IfOk};
ghost use Rattle.bt_disk.specs.Limits.{one_more};

use bt_disk::{DeviceFault, Disk, FaultDisk, Loss, MemoryDisk};
use std::alloc::{AllocError, Global};

/// How many calls of a kind were made of a device, failed ones too.
#[derive(Clone, Copy)]
pub struct Calls {
    pub reads: u64,
    pub writes: u64,
    pub syncs: u64,
}

/// What a device does wrong, from a call on or by it.
#[derive(Clone, Copy)]
pub enum Defect {
    /// The call fails.
    Once,
    /// It and all after it fail.
    Stop,
    /// From it on the byte at a place is read with its low bit changed.
    Flip(u64),
}

/// What a device keeps.
#[derive(Drop)]
enum Medium {
    Memory(FaultDisk<MemoryDisk>),
    /// Nothing but its length: it reads as zeros.
    Zeros(u64),
}

/// A device that counts its calls from its making on. Nothing is promised of it but the count of its faults.
#[derive(Drop)]
pub struct TestDisk {
    medium: Medium,
    calls: Calls,
    faults: u64,
}

impl Medium {
    fn len(&mut self) -> Result<u64, DeviceFault> {
        match self {
            Medium::Memory(disk) => disk.len(),
            Medium::Zeros(len) => Ok(*len),
        }
    }

    fn read_at(&mut self, at: u64, out: &mut [u8]) -> Result<usize, DeviceFault>
        ensures { IfOk result (λ count. count ≤ length out.new) }
    {
        match self {
            Medium::Memory(disk) => disk.read_at(at, out),
            Medium::Zeros(len) => Ok(read_zeros(*len, at, out)),
        }
    }

    fn write_at(&mut self, at: u64, bytes: &[u8]) -> Result<(), DeviceFault> {
        match self {
            Medium::Memory(disk) => disk.write_at(at, bytes),
            Medium::Zeros(len) => {
                *len = (*len).max(at.saturating_add(bytes.len() as u64));
                Ok(())
            }
        }
    }

    fn set_len(&mut self, now: u64) -> Result<(), DeviceFault> {
        match self {
            Medium::Memory(disk) => disk.set_len(now),
            Medium::Zeros(len) => {
                *len = now;
                Ok(())
            }
        }
    }

    fn sync(&mut self) -> Result<(), DeviceFault> {
        match self {
            Medium::Memory(disk) => disk.sync(),
            Medium::Zeros(_) => Ok(()),
        }
    }
}

/// Reads zeros of a device of `len` bytes from a place on, as many as there are and as there is room for.
fn read_zeros(len: u64, at: u64, out: &mut [u8]) -> usize
    ensures { result ≤ length out.new }
{
    let left = len.saturating_sub(at) as usize;
    let count = out.len().min(left);
    out[..count].fill(0);
    count
}

impl TestDisk {
    /// A device in memory, with these bytes, and a defect at the call of this number; with none, where it is 0.
    pub fn in_memory(alloc: Global, bytes: Vec<u8>, defect: Defect, call: u64) -> Self {
        let disk = FaultDisk::new(MemoryDisk::new(alloc, bytes));
        TestDisk::new(Medium::Memory(with_defect(disk, defect, call)))
    }

    /// A device of `len` zeros, that keeps nothing of what is written to it but how long it makes it.
    pub fn of_zeros(len: u64) -> Self {
        TestDisk::new(Medium::Zeros(len))
    }

    fn new(medium: Medium) -> Self {
        TestDisk {
            medium,
            calls: Calls {
                reads: 0,
                writes: 0,
                syncs: 0,
            },
            faults: 0,
        }
    }

    /// The bytes that it keeps.
    pub fn bytes(&self) -> &[u8] {
        match &self.medium {
            Medium::Memory(disk) => disk.inner().bytes(),
            Medium::Zeros(_) => &[],
        }
    }

    /// How long it is, where it keeps nothing else.
    pub fn kept_len(&self) -> Option<u64> {
        match &self.medium {
            Medium::Memory(_) => None,
            Medium::Zeros(len) => Some(*len),
        }
    }

    pub fn calls(&self) -> Calls {
        self.calls
    }

    /// What a crash now leaves, as a device that stops at the call of this number; at none, where it is 0.
    pub fn image(&self, alloc: Global, loss: Loss, call: u64) -> Result<TestDisk, AllocError> {
        match &self.medium {
            Medium::Memory(disk) => {
                let bytes = disk.inner().image(loss)?;
                Ok(TestDisk::in_memory(alloc, bytes, Defect::Stop, call))
            }
            Medium::Zeros(len) => Ok(TestDisk::of_zeros(*len)),
        }
    }

    fn fault(&mut self) -> DeviceFault
        ensures { self.new.faults ≡ one_more self.old.faults }
    {
        self.faults = self.faults.saturating_add(1);
        DeviceFault
    }
}

fn with_defect(disk: FaultDisk<MemoryDisk>, defect: Defect, call: u64) -> FaultDisk<MemoryDisk> {
    if call == 0 || call == u64::MAX {
        return disk;
    }
    match defect {
        Defect::Once => disk.failing_once(call),
        Defect::Stop => disk.failing_from(call),
        Defect::Flip(at) => disk.flipping(call, at),
    }
}

impl Disk for TestDisk {
    ghost use Rattle.bt_disk.specs.Conduct.{untrusted};

    ghost conduct = { untrusted (λ d. d.faults) };

    ghost reads_image = { λ d h. absurd h };

    fn len(&mut self) -> Result<u64, DeviceFault> {
        match self.medium.len() {
            Ok(len) => Ok(len),
            Err(_) => Err(self.fault()),
        }
    }

    fn read_at(&mut self, at: u64, out: &mut [u8]) -> Result<usize, DeviceFault> {
        self.calls.reads = self.calls.reads.saturating_add(1);
        match self.medium.read_at(at, out) {
            Ok(count) => Ok(count),
            Err(_) => Err(self.fault()),
        }
    }

    fn write_at(&mut self, at: u64, bytes: &[u8]) -> Result<(), DeviceFault> {
        self.calls.writes = self.calls.writes.saturating_add(1);
        match self.medium.write_at(at, bytes) {
            Ok(()) => Ok(()),
            Err(_) => Err(self.fault()),
        }
    }

    fn set_len(&mut self, len: u64) -> Result<(), DeviceFault> {
        match self.medium.set_len(len) {
            Ok(()) => Ok(()),
            Err(_) => Err(self.fault()),
        }
    }

    fn sync(&mut self) -> Result<(), DeviceFault> {
        self.calls.syncs = self.calls.syncs.saturating_add(1);
        match self.medium.sync() {
            Ok(()) => Ok(()),
            Err(_) => Err(self.fault()),
        }
    }
}
