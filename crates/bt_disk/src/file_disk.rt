//! A device that is a file of the system.
ghost use Rattle.std.specs.Prelude.{◌≡◌, ◌≢◌, IfOk, OnErr};
ghost use Rattle.bt_disk.specs.FileDisk.{writing};

use crate::device_files::DeviceFiles;
use crate::disk::{DeviceFault, Disk, counted_fault};
use crate::handle::{Handle, Opened, file_len, read_handle, write_file};
use crate::opening::Opening;
use std::fs::OpenFile;
use std::io::{Read, Seek, Write};
use std::marker::Model;

/// A device that is a file of the system, with an open handle of its own.
///
/// No contract says what a file of the system holds, so it is not honest. Known are its count of failed
/// calls, whether it may be written, and what is read and written of the open file, as far as the file's type
/// says where it stands and what it holds. A call takes no memory and makes one call of the system, or a seek
/// and a read or write; it makes more where a read finds the file's end or can't be placed, and where the
/// system answers in parts.
#[derive(Drop)]
pub struct FileDisk<F: Read + Write + Seek + OpenFile + Drop> {
    handle: Handle<F>,
    opening: Opening,
    failed: u64,
}

impl<F: Read + Write + Seek + OpenFile + Drop> Model for FileDisk<F> {
    ghost use Rattle.bt_disk.specs.FileDisk.{FileView, access_of};

    ghost Value = { FileView };

    ghost view = { λ d. record { access = access_of d.handle; failed = d.failed } };
}

impl<F: Read + Write + Seek + OpenFile + Drop> FileDisk<F> {
    /// A file that is read: every write, change of the length and sync fails. One that is absent is read as
    /// empty: there is none, or one of its folders is missing or is no folder, or a name or the path is
    /// longer than the system takes.
    ///
    /// Errors: what lies there is no regular file, or it can't be opened.
    pub fn reading<R: DeviceFiles<File = F>>(rt: &R, path: &str) -> Result<Self, DeviceFault>
        ensures refused { OnErr result (R.refuses rt.now path.now) }
        ensures failed { IfOk result (λ disk. disk.failed ≡ 0) }
        ensures access { IfOk result (λ disk. disk.access ≢ writing) }
    {
        let (handle, opening) = match rt.open_to_read(path)? {
            Some(opened) => (Handle::Reading(opened.file), opened.opening),
            None => (Handle::Absent, Opening::absent()),
        };
        Ok(FileDisk {
            handle,
            opening,
            failed: 0,
        })
    }

    /// A file that is read and written. An absent one is made, with no bytes; one that is there keeps its
    /// bytes.
    ///
    /// Errors: what lies there is no regular file, or it can't be opened or made.
    pub fn writing<R: DeviceFiles<File = F>>(rt: &R, path: &str) -> Result<Self, DeviceFault>
        ensures refused { OnErr result (R.refuses rt.now path.now) }
        ensures ok { IfOk result (λ disk. disk ≡ record { access = writing; failed = 0 }) }
    {
        let Opened { file, opening } = rt.open_to_write(path)?;
        Ok(FileDisk {
            handle: Handle::Writing(file),
            opening,
            failed: 0,
        })
    }

    /// What the system told of the file when it was opened.
    pub fn opening(&self) -> Opening {
        self.opening
    }
}

impl<F: Read + Write + Seek + OpenFile + Drop> Disk for FileDisk<F> {
    ghost use Rattle.std.specs.Prelude.{◌≡◌, ◌≢◌, ◌↔◌, ◌≤◌, [], IsErr, IfOk, OnOk, length, take};
    ghost use Rattle.bt_disk.specs.Limits.{count_after};
    ghost use Rattle.bt_disk.specs.Calls.{IsAnswered, len_call, read_call, write_call, set_len_call, sync_call};
    ghost use Rattle.bt_disk.specs.FileDisk.{absent, writing};
    ghost use Rattle.bt_disk.specs.Handle.{IsReadOfFile, IsWrittenToFile};
    ghost use Rattle.bt_disk.specs.Conduct.{untrusted};
    ghost use Rattle.bt_disk.specs.History.{new_history};

    ghost conduct = { untrusted (λ d. d.failed) };

    ghost reads_image = { λ _ honest. absurd honest };

    fn len(&mut self) -> Result<u64, DeviceFault>
        ensures absent { self.old.access ≡ absent → result ≡ Ok 0 }
        ensures access { self.new.access ≡ self.old.access }
        ensures counted { self.new.failed ≡ count_after self.old.failed result }
        ensures as_honest { ⊥ ↔ ⊥ }
        ensures answered { ⊥ → IsAnswered (new_history []) (len_call result) (new_history []) }
    {
        let answer = match &self.handle {
            Handle::Absent => Ok(0),
            Handle::Reading(file) | Handle::Writing(file) => file_len(file),
        };
        match answer {
            Ok(len) => Ok(len),
            Err(_) => Err(counted_fault(&mut self.failed)),
        }
    }

    fn read_at(&mut self, at: u64, out: &mut [u8]) -> Result<usize, DeviceFault>
        ensures absent { self.old.access ≡ absent → result ≡ Ok 0 }
        ensures access { self.new.access ≡ self.old.access }
        ensures within { IfOk result (λ count. count ≤ length out.new) }
        ensures gives { self.old.access ≢ absent → IfOk result (λ count.
            IsReadOfFile F.stream_position F.stream_bytes F.remaining
            at (length out.new) (take count out.new)) }
        ensures counted { self.new.failed ≡ count_after self.old.failed result }
        ensures as_honest { ⊥ ↔ ⊥ }
        ensures answered { ⊥ → IsAnswered (new_history []) (read_call at out.new result)
            (new_history []) }
    {
        match read_handle(&mut self.handle, at, out) {
            Ok(count) => Ok(count),
            Err(_) => Err(counted_fault(&mut self.failed)),
        }
    }

    fn write_at(&mut self, at: u64, bytes: &[u8]) -> Result<(), DeviceFault>
        ensures refused { self.old.access ≢ writing → IsErr result }
        ensures written { OnOk result (IsWrittenToFile F.stream_position F.contents at bytes.now) }
        ensures access { self.new.access ≡ self.old.access }
        ensures counted { self.new.failed ≡ count_after self.old.failed result }
        ensures as_honest { ⊥ ↔ ⊥ }
        ensures answered { ⊥ → IsAnswered (new_history []) (write_call at bytes.now result)
            (new_history []) }
    {
        if let Handle::Writing(file) = &mut self.handle
            && write_file(file, at, bytes).is_ok()
        {
            return Ok(());
        }
        Err(counted_fault(&mut self.failed))
    }

    fn set_len(&mut self, len: u64) -> Result<(), DeviceFault>
        ensures refused { self.old.access ≢ writing → IsErr result }
        ensures access { self.new.access ≡ self.old.access }
        ensures counted { self.new.failed ≡ count_after self.old.failed result }
        ensures as_honest { ⊥ ↔ ⊥ }
        ensures answered { ⊥ → IsAnswered (new_history []) (set_len_call len result)
            (new_history []) }
    {
        if let Handle::Writing(file) = &self.handle
            && file.set_len(len).is_ok()
        {
            return Ok(());
        }
        Err(counted_fault(&mut self.failed))
    }

    fn sync(&mut self) -> Result<(), DeviceFault>
        ensures refused { self.old.access ≢ writing → IsErr result }
        ensures access { self.new.access ≡ self.old.access }
        ensures counted { self.new.failed ≡ count_after self.old.failed result }
        ensures as_honest { ⊥ ↔ ⊥ }
        ensures answered { ⊥ → IsAnswered (new_history []) (sync_call result) (new_history []) }
    {
        if let Handle::Writing(file) = &self.handle
            && file.sync_all().is_ok()
        {
            return Ok(());
        }
        Err(counted_fault(&mut self.failed))
    }
}
