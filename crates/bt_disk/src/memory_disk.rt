//! A device in memory.
ghost use Rattle.std.specs.Prelude.{◌≡◌, ◌↔◌, ◌≤◌, [], IfOk, IsOk, OnErr, drop, length};
ghost use Rattle.bt_disk.specs.State.{IsImage};

use crate::disk::{DeviceFault, Disk, counted_fault};
use crate::loss::Loss;
use crate::medium::Medium;
use std::alloc::{AllocError, Global};
use std::marker::Model;

/// A device in memory, which is honest. It keeps a record of all calls that changed it, for what a crash at
/// an earlier moment leaves, so each of these takes memory, also a write over bytes that are there. One that
/// is refused its memory fails, and then nothing changed; no other call fails.
#[derive(Drop)]
pub struct MemoryDisk {
    medium: Medium,
    failed: u64,
}

impl Model for MemoryDisk {
    ghost use Rattle.bt_disk.specs.MemoryDisk.{MemoryView};

    ghost Value = { MemoryView };

    ghost view = { λ d. record { kept = d.medium; failed = d.failed } };
}

impl MemoryDisk {
    ghost use Rattle.bt_disk.specs.MemoryDisk.{new_record, history_of, IsLeftBy};

    /// A device with these bytes, which a crash leaves as they are.
    pub fn new(alloc: Global, bytes: Vec<u8>) -> Self
        ensures { result ≡ record { kept = new_record bytes.items; failed = 0 } }
    {
        MemoryDisk {
            medium: Medium::new(alloc, bytes),
            failed: 0,
        }
    }

    /// The bytes that a read gives.
    pub fn bytes(&self) -> &[u8]
        ensures { result.now ≡ (history_of self.now.kept).now.bytes }
    {
        self.medium.bytes()
    }

    /// The bytes that a crash now leaves, by its loss: those of the device that `after_crash` makes. The device
    /// stays as it is.
    pub fn image(&self, loss: Loss) -> Result<Vec<u8>, AllocError>
        ensures left { IfOk result
            (λ image. IsLeftBy loss (history_of self.now.kept).now image.items) }
        ensures image { IfOk result (λ image. IsImage (history_of self.now.kept).now image.items) }
    {
        self.medium.image(loss)
    }

    /// What a crash now leaves, as a device that has just been made. It takes no memory.
    pub fn after_crash(self, loss: Loss) -> Self
        ensures new { result ≡ record { kept = new_record result.kept.first; failed = 0 } }
        ensures left { IsLeftBy loss (history_of self.kept).now result.kept.first }
        ensures image { IsImage (history_of self.kept).now result.kept.first }
    {
        MemoryDisk {
            medium: self.medium.after_crash(loss),
            failed: 0,
        }
    }
}

impl Disk for MemoryDisk {
    ghost use Rattle.std.specs.Prelude.{⊤};
    ghost use Rattle.bt_disk.specs.Limits.{count_after};
    ghost use Rattle.bt_disk.specs.Calls.{IsAnswered, len_call, read_call, write_call, set_len_call, sync_call};
    ghost use Rattle.bt_disk.specs.MemoryDisk.{history_of, memory_conduct};
    ghost use Rattle.bt_disk.specs.ReadsImage.{reads_image};

    ghost conduct = { memory_conduct };

    ghost reads_image = { λ d _. reads_image d.kept };

    fn len(&mut self) -> Result<u64, DeviceFault>
        ensures ok { IsOk result }
        ensures same { self.new ≡ self.old }
        ensures counted { self.new.failed ≡ count_after self.old.failed result }
        ensures as_honest { ⊤ ↔ ⊤ }
        ensures answered { ⊤
            → IsAnswered (history_of self.old.kept) (len_call result) (history_of self.new.kept) }
    {
        Ok(self.medium.bytes().len() as u64)
    }

    fn read_at(&mut self, at: u64, out: &mut [u8]) -> Result<usize, DeviceFault>
        ensures ok { IsOk result }
        ensures same { self.new ≡ self.old }
        ensures within { IfOk result (λ count. count ≤ length out.new) }
        ensures counted { self.new.failed ≡ count_after self.old.failed result }
        ensures as_honest { ⊤ ↔ ⊤ }
        ensures answered { ⊤
            → IsAnswered (history_of self.old.kept) (read_call at out.new result)
            (history_of self.new.kept) }
    {
        let rest = bytes_from(self.medium.bytes(), at);
        let count = rest.len().min(out.len());
        out[..count].copy_from_slice(&rest[..count]);
        Ok(count)
    }

    fn write_at(&mut self, at: u64, bytes: &[u8]) -> Result<(), DeviceFault>
        ensures empty { bytes.now ≡ [] → IsOk result }
        ensures err { OnErr result (self.new.kept ≡ self.old.kept) }
        ensures counted { self.new.failed ≡ count_after self.old.failed result }
        ensures as_honest { ⊤ ↔ ⊤ }
        ensures answered { ⊤
            → IsAnswered
            (history_of self.old.kept) (write_call at bytes.now result) (history_of self.new.kept) }
    {
        if bytes.is_empty() {
            return Ok(());
        }
        match self.medium.write(at, bytes) {
            Ok(()) => Ok(()),
            Err(_) => Err(counted_fault(&mut self.failed)),
        }
    }

    fn set_len(&mut self, len: u64) -> Result<(), DeviceFault>
        ensures err { OnErr result (self.new.kept ≡ self.old.kept) }
        ensures counted { self.new.failed ≡ count_after self.old.failed result }
        ensures as_honest { ⊤ ↔ ⊤ }
        ensures answered { ⊤
            → IsAnswered (history_of self.old.kept) (set_len_call len result)
            (history_of self.new.kept) }
    {
        match self.medium.set_len(len) {
            Ok(()) => Ok(()),
            Err(_) => Err(counted_fault(&mut self.failed)),
        }
    }

    fn sync(&mut self) -> Result<(), DeviceFault>
        ensures err { OnErr result (self.new.kept ≡ self.old.kept) }
        ensures counted { self.new.failed ≡ count_after self.old.failed result }
        ensures as_honest { ⊤ ↔ ⊤ }
        ensures answered { ⊤
            → IsAnswered (history_of self.old.kept) (sync_call result) (history_of self.new.kept) }
    {
        match self.medium.sync() {
            Ok(()) => Ok(()),
            Err(_) => Err(counted_fault(&mut self.failed)),
        }
    }
}

/// The bytes from one on.
fn bytes_from(bytes: &[u8], at: u64) -> &[u8]
    ensures { result.now ≡ drop at bytes.now }
{
    &bytes[bytes.len().min(at as usize)..]
}
