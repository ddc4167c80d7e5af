//! Files of the system that share a few open handles.
ghost use Rattle.std.specs.Prelude.{◌≡◌, ◌≢◌, ◌+◌, ◌<◌, ◌≤◌, IfOk, IfErr, IfSome, OnOk, OnErr, true, false, length, take, string_bytes};
ghost use Rattle.bt_disk.specs.FileDisk.{writing};
ghost use Rattle.bt_disk.specs.Handle.{IsReadOfFile, IsWrittenToFile};
ghost use Rattle.bt_disk.specs.Pool.{access_of_use, new_pool, IsNoDeviceLeft, IsNotMade, IsHandleOf};

use crate::device_files::DeviceFiles;
use crate::disk::{DeviceFault, Disk, counted_fault};
use crate::handle::{file_len, open_present, read_file, write_file};
use crate::open_handles::{OpenHandle, OpenHandles};
use crate::opening::{Opening, is_same_file};
use std::alloc::{AllocError, Global};
use std::cell::RefCell;
use std::fs::{Files, OpenFile};
use std::marker::Model;
use std::rc::Rc;

/// What the disks of a pool share.
#[derive(Drop)]
struct Shared<R: Files + Drop> {
    rt: R,
    handles: RefCell<OpenHandles<R::File>>,
}

/// Makes devices that are files of the system and share a few open handles, so that a process may have more
/// of them than it may open files.
///
/// A call takes its file's handle from the pool, or opens the file, and puts the handle back; before a file
/// is opened, the handle that was used longest ago is closed where there is no room. So a run of calls of one
/// file opens it once. A handle that has written is synced before it is closed: where that fails, the next sync
/// of its device does. Those that are left when the pool and its devices go are closed without.
#[derive(Drop)]
pub struct HandlePool<R: Files + Drop> {
    shared: Rc<Shared<R>>,
    /// How many devices it made, which is the number of the last one.
    made: u64,
}

impl<R: Files + Drop> Model for HandlePool<R> {
    ghost use Rattle.bt_disk.specs.Pool.{PoolView};

    ghost Value = { PoolView };

    ghost view = { λ p. record { made = p.made } };
}

impl<R: DeviceFiles + Drop> HandlePool<R> {
    /// A pool of at most `limit` open handles, which is above 0, for which it takes memory here alone. It has
    /// made no device yet. (More is asked for only where a sync fails as a handle is closed: where it is refused
    /// then, each further sync of a file that was written since its last one fails.)
    ///
    /// Errors: memory is refused.
    pub fn new(alloc: Global, rt: R, limit: usize) -> Result<Self, AllocError>
        requires { 0 < limit }
        ensures { IfOk result (λ pool. pool ≡ new_pool) }
    {
        let handles = RefCell::new(OpenHandles::new(alloc, limit)?);
        let shared = Rc::new(alloc, Shared { rt, handles })?;
        Ok(HandlePool { shared, made: 0 })
    }

    /// A file that is read, as [`FileDisk::reading`](crate::FileDisk::reading) has it. One that is absent now is
    /// read as empty from here on: its path is not looked at again.
    ///
    /// Errors: also where no number is left for a device, or no count of the `Rc` that they share.
    pub fn reading(&mut self, path: String) -> Result<PooledDisk<R>, DeviceFault>
        ensures failed { IfOk result (λ disk. disk.failed ≡ 0) }
        ensures access { IfOk result (λ disk. disk.access ≢ writing) }
        ensures is_synced { IfOk result (λ disk. disk.is_synced ≡ false) }
        ensures is_written { IfOk result (λ disk. disk.is_written ≡ false) }
        ensures number { IfOk result (λ disk. disk.number ≡ self.new.made) }
        ensures path { IfOk result (λ disk. disk.path ≡ string_bytes path) }
        ensures one_more { IfOk result (λ _. self.new.made ≡ self.old.made + 1) }
        ensures no_more { IfErr result (λ _. self.new ≡ self.old) }
        ensures fault { OnErr result (IsNotMade R.refuses R.is_shared_out
            (string_bytes path) self.old.made) }
    {
        make_room(&self.shared);
        let Some(opened) = self.shared.rt.open_to_read(path.as_str())? else {
            return self.device(path, Use::Absent, Opening::absent());
        };
        let disk = self.device(path, Use::Reading, opened.opening)?;
        put_back(&disk.shared, OpenHandle::new(disk.number, opened));
        Ok(disk)
    }

    /// A file that is read and written, as [`FileDisk::writing`](crate::FileDisk::writing) has it.
    ///
    /// Errors: also where no number is left for a device, or no count of the `Rc` that they share.
    pub fn writing(&mut self, path: String) -> Result<PooledDisk<R>, DeviceFault>
        ensures failed { IfOk result (λ disk. disk.failed ≡ 0) }
        ensures access { IfOk result (λ disk. disk.access ≡ writing) }
        ensures is_synced { IfOk result (λ disk. disk.is_synced ≡ false) }
        ensures is_written { IfOk result (λ disk. disk.is_written ≡ false) }
        ensures number { IfOk result (λ disk. disk.number ≡ self.new.made) }
        ensures path { IfOk result (λ disk. disk.path ≡ string_bytes path) }
        ensures one_more { IfOk result (λ _. self.new.made ≡ self.old.made + 1) }
        ensures no_more { IfErr result (λ _. self.new ≡ self.old) }
        ensures fault { OnErr result (IsNotMade R.refuses R.is_shared_out
            (string_bytes path) self.old.made) }
    {
        make_room(&self.shared);
        let opened = self.shared.rt.open_to_write(path.as_str())?;
        let disk = self.device(path, Use::Writing, opened.opening)?;
        put_back(&disk.shared, OpenHandle::new(disk.number, opened));
        Ok(disk)
    }

    /// The next device, with a number that no other of this pool has.
    fn device(
        &mut self,
        path: String,
        usage: Use,
        opening: Opening,
    ) -> Result<PooledDisk<R>, DeviceFault>
        ensures device { IfOk result (λ disk. disk ≡ record {
          number = self.new.made;
          path = string_bytes path;
          access = access_of_use usage;
          identity = opening.identity;
          is_synced = false;
          is_written = false;
          failed = 0;
        }) }
        ensures one_more { IfOk result (λ _. self.new.made ≡ self.old.made + 1) }
        ensures no_more { IfErr result (λ _. self.new ≡ self.old) }
        ensures fault { OnErr result (IsNoDeviceLeft R.is_shared_out self.old.made) }
    {
        let shared = self.shared.rt.share(&self.shared)?;
        let Some(number) = self.made.checked_add(1) else {
            return Err(DeviceFault);
        };
        self.made = number;
        Ok(PooledDisk {
            shared,
            number,
            path,
            usage,
            opening,
            is_synced: false,
            is_written: false,
            failed: 0,
        })
    }
}

/// How a device uses its file.
#[derive(Clone, Copy, Debug, PartialEq, Eq)]
enum Use {
    Absent,
    Reading,
    Writing,
}

/// A device that is a file of the system, whose handle is shared with the other devices of its pool.
///
/// It is as [`FileDisk`](crate::FileDisk) is, but a call may have to open the file again. Then it has to be
/// there, and to be the file that was opened first, by its identity, or the call fails, and neither reads nor
/// writes. A sync also fails, once, where one failed as a handle of the file was closed.
///
/// It makes no call of the system where there is nothing to sync: of a file that is only read, and after another
/// sync, with no write and no new length between them. Of many files few are written. A file that is gone is no
/// fault to a sync where it was never written.
#[derive(Drop)]
pub struct PooledDisk<R: Files + Drop> {
    shared: Rc<Shared<R>>,
    number: u64,
    path: String,
    usage: Use,
    opening: Opening,
    /// After a sync, until a write or a new length: there is nothing to sync then.
    is_synced: bool,
    /// From the first write or new length on.
    is_written: bool,
    failed: u64,
}

impl<R: Files + Drop> Model for PooledDisk<R> {
    ghost use Rattle.std.specs.Prelude.{string_bytes};
    ghost use Rattle.bt_disk.specs.Pool.{PooledView, access_of_use};

    ghost Value = { PooledView };

    ghost view = { λ d. record {
      number = d.number;
      path = string_bytes d.path;
      access = access_of_use d.usage;
      identity = d.opening.identity;
      is_synced = d.is_synced;
      is_written = d.is_written;
      failed = d.failed;
    } };
}

impl<R: Files + Drop> PooledDisk<R> {
    /// What the system told of the file when it was opened first.
    pub fn opening(&self) -> Opening
        ensures identity { result.identity ≡ self.now.identity }
    {
        self.opening
    }

    /// Counts as synced from here on, until a write or a new length: what the file has is as the one who opened
    /// it found it, and is none of what is to be kept.
    pub fn assume_synced(mut self) -> Self
        ensures { result ≡ record self { is_synced = true } }
    {
        // No call is made: there is nothing of ours to sync.
        self.is_synced = true;
        self
    }

    /// The open handle of its file. None, where the file is gone.
    ///
    /// Errors: the file can't be opened, or another one is at its path now.
    fn found_handle(&self) -> Result<Option<OpenHandle<R::File>>, DeviceFault>
        ensures { IfOk result (λ found. IfSome found (IsHandleOf self.now)) }
    {
        let Some(handle) = self.any_handle()? else {
            return Ok(None);
        };
        if is_same_file(self.opening.identity, handle.identity) {
            Ok(Some(handle))
        } else {
            Err(DeviceFault)
        }
    }

    /// The pool's handle, or a new one of the file that is at its path now, if there is one.
    fn any_handle(&self) -> Result<Option<OpenHandle<R::File>>, DeviceFault>
        ensures { IfOk result (λ found. IfSome found (λ handle. handle.device ≡ self.now.number)) }
    {
        if let Some(handle) = take(&self.shared, self.number) {
            return Ok(Some(handle));
        }
        make_room(&self.shared);
        let to_write = self.usage == Use::Writing;
        match open_present(&self.shared.rt, self.path.as_str(), to_write)? {
            Some(opened) => Ok(Some(OpenHandle::new(self.number, opened))),
            None => Ok(None),
        }
    }

    /// The open handle of its file, which has to be there.
    fn handle(&self) -> Result<OpenHandle<R::File>, DeviceFault>
        ensures { IfOk result (IsHandleOf self.now) }
    {
        self.found_handle()?.ok_or(DeviceFault)
    }

    fn file_len(&self) -> Result<u64, DeviceFault> {
        let handle = self.handle()?;
        let answer = file_len(&handle.file);
        put_back(&self.shared, handle);
        answer
    }

    fn read_file(&self, at: u64, out: &mut [u8]) -> Result<usize, DeviceFault>
        ensures within { IfOk result (λ count. count ≤ length out.new) }
        ensures gives { IfOk result (λ count.
            IsReadOfFile R.File.stream_position R.File.stream_bytes R.File.remaining
            at (length out.new) (take count out.new)) }
    {
        let mut handle = self.handle()?;
        let answer = read_file(&mut handle.file, at, out);
        put_back(&self.shared, handle);
        answer
    }

    fn write_file(&self, at: u64, bytes: &[u8]) -> Result<(), DeviceFault>
        ensures { OnOk result (IsWrittenToFile R.File.stream_position R.File.contents at
            bytes.now) }
    {
        let mut handle = self.handle()?;
        handle.has_written = true;
        let answer = write_file(&mut handle.file, at, bytes);
        put_back(&self.shared, handle);
        answer
    }

    fn set_file_len(&self, len: u64) -> Result<(), DeviceFault> {
        let mut handle = self.handle()?;
        handle.has_written = true;
        let is_set = handle.file.set_len(len).is_ok();
        put_back(&self.shared, handle);
        is_set.then_some(()).ok_or(DeviceFault)
    }

    /// Has the file synced. One that is gone has nothing to sync where it was never written.
    fn sync_file(&self) -> Result<(), DeviceFault> {
        if tell_loss(&self.shared, self.number) {
            return Err(DeviceFault);
        }
        match self.found_handle()? {
            Some(handle) => self.sync_handle(handle),
            None if self.is_written => Err(DeviceFault),
            None => Ok(()),
        }
    }

    fn sync_handle(&self, mut handle: OpenHandle<R::File>) -> Result<(), DeviceFault> {
        let is_synced = handle.file.sync_all().is_ok();
        handle.has_written = handle.has_written && !is_synced;
        put_back(&self.shared, handle);
        is_synced.then_some(()).ok_or(DeviceFault)
    }
}

impl<R: Files + Drop> Disk for PooledDisk<R> {
    ghost use Rattle.std.specs.Prelude.{◌≡◌, ◌≢◌, ◌↔◌, ◌≤◌, [], IsErr, IsOk, IfOk, IfErr, OnOk, true, false, length, take};
    ghost use Rattle.bt_disk.specs.Limits.{count_after};
    ghost use Rattle.bt_disk.specs.History.{new_history};
    ghost use Rattle.bt_disk.specs.Pool.{pooled_conduct};
    ghost use Rattle.bt_disk.specs.Calls.{IsAnswered, len_call, read_call, write_call, set_len_call, sync_call};
    ghost use Rattle.bt_disk.specs.FileDisk.{absent, writing};
    ghost use Rattle.bt_disk.specs.Handle.{IsReadOfFile, IsWrittenToFile};

    ghost conduct = { pooled_conduct };

    ghost reads_image = { λ _ honest. absurd honest };

    fn len(&mut self) -> Result<u64, DeviceFault>
        ensures absent { self.old.access ≡ absent → result ≡ Ok 0 }
        ensures number { self.new.number ≡ self.old.number }
        ensures path { self.new.path ≡ self.old.path }
        ensures access { self.new.access ≡ self.old.access }
        ensures identity { self.new.identity ≡ self.old.identity }
        ensures is_synced { self.new.is_synced ≡ self.old.is_synced }
        ensures is_written { self.new.is_written ≡ self.old.is_written }
        ensures counted { self.new.failed ≡ count_after self.old.failed result }
        ensures as_honest { ⊥ ↔ ⊥ }
        ensures answered { ⊥ → IsAnswered (new_history []) (len_call result) (new_history []) }
    {
        if self.usage == Use::Absent {
            return Ok(0);
        }
        match self.file_len() {
            Ok(len) => Ok(len),
            Err(_) => Err(counted_fault(&mut self.failed)),
        }
    }

    fn read_at(&mut self, at: u64, out: &mut [u8]) -> Result<usize, DeviceFault>
        ensures absent { self.old.access ≡ absent → result ≡ Ok 0 }
        ensures number { self.new.number ≡ self.old.number }
        ensures path { self.new.path ≡ self.old.path }
        ensures access { self.new.access ≡ self.old.access }
        ensures identity { self.new.identity ≡ self.old.identity }
        ensures is_synced { self.new.is_synced ≡ self.old.is_synced }
        ensures is_written { self.new.is_written ≡ self.old.is_written }
        ensures within { IfOk result (λ count. count ≤ length out.new) }
        ensures gives { self.old.access ≢ absent → IfOk result (λ count.
            IsReadOfFile R.File.stream_position R.File.stream_bytes R.File.remaining
            at (length out.new) (take count out.new)) }
        ensures counted { self.new.failed ≡ count_after self.old.failed result }
        ensures as_honest { ⊥ ↔ ⊥ }
        ensures answered { ⊥ → IsAnswered (new_history []) (read_call at out.new result)
            (new_history []) }
    {
        if self.usage == Use::Absent {
            return Ok(0);
        }
        match self.read_file(at, out) {
            Ok(count) => Ok(count),
            Err(_) => Err(counted_fault(&mut self.failed)),
        }
    }

    fn write_at(&mut self, at: u64, bytes: &[u8]) -> Result<(), DeviceFault>
        ensures refused { self.old.access ≢ writing → IsErr result }
        ensures written { OnOk result (IsWrittenToFile R.File.stream_position R.File.contents at
            bytes.now) }
        ensures number { self.new.number ≡ self.old.number }
        ensures path { self.new.path ≡ self.old.path }
        ensures access { self.new.access ≡ self.old.access }
        ensures identity { self.new.identity ≡ self.old.identity }
        ensures is_synced { self.new.is_synced ≡ false }
        ensures is_written { self.new.is_written ≡ true }
        ensures counted { self.new.failed ≡ count_after self.old.failed result }
        ensures as_honest { ⊥ ↔ ⊥ }
        ensures answered { ⊥ → IsAnswered (new_history []) (write_call at bytes.now result)
            (new_history []) }
    {
        self.is_synced = false;
        self.is_written = true;
        if self.usage == Use::Writing && self.write_file(at, bytes).is_ok() {
            return Ok(());
        }
        Err(counted_fault(&mut self.failed))
    }

    fn set_len(&mut self, len: u64) -> Result<(), DeviceFault>
        ensures refused { self.old.access ≢ writing → IsErr result }
        ensures number { self.new.number ≡ self.old.number }
        ensures path { self.new.path ≡ self.old.path }
        ensures access { self.new.access ≡ self.old.access }
        ensures identity { self.new.identity ≡ self.old.identity }
        ensures is_synced { self.new.is_synced ≡ false }
        ensures is_written { self.new.is_written ≡ true }
        ensures counted { self.new.failed ≡ count_after self.old.failed result }
        ensures as_honest { ⊥ ↔ ⊥ }
        ensures answered { ⊥ → IsAnswered (new_history []) (set_len_call len result)
            (new_history []) }
    {
        self.is_synced = false;
        self.is_written = true;
        if self.usage == Use::Writing && self.set_file_len(len).is_ok() {
            return Ok(());
        }
        Err(counted_fault(&mut self.failed))
    }

    fn sync(&mut self) -> Result<(), DeviceFault>
        ensures unwritten { self.old.access ≢ writing → IsOk result }
        ensures number { self.new.number ≡ self.old.number }
        ensures path { self.new.path ≡ self.old.path }
        ensures access { self.new.access ≡ self.old.access }
        ensures identity { self.new.identity ≡ self.old.identity }
        ensures is_synced { OnOk result (self.new.is_synced ≡ true) }
        ensures is_written { self.new.is_written ≡ self.old.is_written }
        ensures as_before { IfErr result (λ _. self.new.is_synced ≡ self.old.is_synced) }
        ensures again { self.old.is_synced ≡ true → IsOk result }
        ensures counted { self.new.failed ≡ count_after self.old.failed result }
        ensures as_honest { ⊥ ↔ ⊥ }
        ensures answered { ⊥ → IsAnswered (new_history []) (sync_call result) (new_history []) }
    {
        if self.usage != Use::Writing || self.is_synced || self.sync_file().is_ok() {
            self.is_synced = true;
            return Ok(());
        }
        Err(counted_fault(&mut self.failed))
    }
}

/// Takes the handle of a device out of the pool, where it is open.
fn take<R: Files + Drop>(shared: &Shared<R>, number: u64) -> Option<OpenHandle<R::File>>
    ensures { IfSome result (λ handle. handle.device ≡ number) }
{
    match shared.handles.try_borrow_mut() {
        Ok(mut handles) => handles.take(number),
        Err(_) => None,
    }
}

/// Closes the handle that was used longest ago, where the pool has no room for another.
fn make_room<R: Files + Drop>(shared: &Shared<R>) {
    if let Ok(mut handles) = shared.handles.try_borrow_mut() {
        handles.make_room();
    }
}

/// Puts a device's handle into the pool.
fn put_back<R: Files + Drop>(shared: &Shared<R>, handle: OpenHandle<R::File>) {
    if let Ok(mut handles) = shared.handles.try_borrow_mut() {
        handles.put(handle);
    }
}

/// Whether a sync failed as a handle of the device was closed, which it was not told of yet.
fn tell_loss<R: Files + Drop>(shared: &Shared<R>, number: u64) -> bool {
    match shared.handles.try_borrow_mut() {
        Ok(mut handles) => handles.tell_loss(number),
        Err(_) => true,
    }
}
