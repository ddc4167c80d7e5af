//! The data files of a torrent, opened for a use.
ghost use Rattle.std.specs.Prelude.{[], ◌≡◌, ◌≢◌, ◌+◌, ◌++◌, ◌∷◌, false, map, length, nat_lt, string_bytes, IfOk, IfErr, IfSome, IsSome, OnOk};
ghost use Rattle.std.specs.Path.{path_buf_bytes};
ghost use Rattle.bt_devices.specs.Disk.{new_ahead};
ghost use Rattle.bt_disk.specs.Pool.{new_pool};
ghost use Rattle.bt_meta.specs.Files.{file_of};
ghost use Rattle.bt_check.specs.Fault.{device};
ghost use Rattle.bt_log_file.specs.GaplessDisk.{new_gapless};
ghost use Rattle.bt_log_file.specs.TouchedDisk.{new_touched};
ghost use Rattle.bt_files.specs.DataFiles.{AreFilled, AreNewDevices, IsNewDevice, IsNewFile};
ghost use Rattle.bt_files.specs.DataFilesSteps.{IsOpenedFor, IsPushed};
ghost use Rattle.bt_files.specs.FileUse.{is_read_only, is_touched_at_first};
ghost use Rattle.bt_files.specs.OpenFolder.{IsCallFault, IsOpeningFault, KnowsOpened};
ghost use Rattle.bt_files.specs.OwnFiles.{AreApart, AreKnown, identity_of};
ghost use Rattle.bt_files.specs.OwnPaths.{AreOwnPaths};

use crate::device_context::DeviceContext;
use crate::file_use::FileUse;
use crate::hints::hint_at_longer;
use crate::open_folder::OpenFolder;
use crate::own_paths::look_at_paths;
use bt_check::{Fault, OPEN_FILES, data_path, fault_name, told};
use bt_devices::{ReadAheadDisk, SealedDisk, Watched};
use bt_disk::{DeviceFault, FileDisk, HandlePool, Opening, PooledDisk};
use bt_folder::{KnownFiles, Lookup};
use bt_log_file::{GaplessDisk, Place, TouchedDisk};
use bt_meta::FileEntry;
use bt_progress::{FileCall, Watch};
use std::alloc::{AllocError, Global};
use std::path::{Path, PathBuf};
use std::rt::Files;

/// The device of a data file. Its file handle is one of a pool. A sync reaches the file only where it was touched.
/// Blocks are read ahead. Its seal may close it to writes. Where a write fails, it rings an alarm, and each of its
/// calls is told to a watch.
pub type DataDisk<'a, R, P> = Watched<
    'a,
    SealedDisk<'a, ReadAheadDisk<'a, GaplessDisk<TouchedDisk<'a, R, P>>>>,
    P,
>;

/// What comes of opening a torrent's files: the devices of those that are not empty, in the torrent's order; for each
/// file whether it has bytes; and what the system tells of each, by which no two are one file (of files that are only
/// read nothing is known).
#[derive(Drop)]
pub(crate) struct OpenFiles<D> {
    pub disks: Vec<D>,
    pub filled: Vec<bool>,
    pub known: KnownFiles,
}

impl<D: Drop> OpenFiles<D> {
    fn new(alloc: Global) -> Self
        ensures disks { result.disks.items ≡ [] }
        ensures filled { result.filled.items ≡ [] }
    {
        OpenFiles {
            disks: Vec::new(alloc),
            filled: Vec::new(alloc),
            known: KnownFiles::new(alloc),
        }
    }

    /// Adds a file after the others.
    fn push(&mut self, file: OpenFile<D>) -> Result<(), AllocError>
        ensures disks { OnOk result (IsPushed self.old.disks.items file.disk self.new.disks.items) }
        ensures filled { OnOk result
            (self.new.filled.items ≡ self.old.filled.items ++ file.is_filled ∷ []) }
    {
        self.filled.push(file.is_filled)?;
        push_some(&mut self.disks, file.disk)
    }
}

/// A file of a torrent that was opened: its device; what the system told of it; and whether it has bytes. A file that
/// the torrent calls empty has no device, and counts as one without bytes, whatever lies at its path.
#[derive(Drop)]
struct OpenFile<D> {
    disk: Option<D>,
    opening: Opening,
    is_filled: bool,
}

/// Opens the files of these entries, one after the other, and gives the devices of those that are not empty. The
/// devices share a pool of a few file handles and the cache of digests that are made ahead, and tell the watch of
/// their calls.
///
/// For any use but a read-only one, folders and files that are missing are made, also the files of empty entries. So
/// that none is lost, the folders on the way to a file are synced where the file was made now, or has no byte yet. A
/// file that is there keeps its bytes. What is there and is no regular file is not opened, which is a device fault.
/// No two paths may lead to one file: that is looked at by what the system tells of each file as it is opened, and
/// once all are open by the names on the paths.
pub(crate) fn open_devices<'a, R: Files + AllocGlobal + Clone + Drop + Lookup, P: Watch>(
    rt: &R,
    watch: &'a P,
    context: DeviceContext<'a>,
    dir: &str,
    entries: &[FileEntry],
) -> Result<OpenFiles<DataDisk<'a, R, P>>, Fault>
    ensures devices { IfOk result (λ files.
        AreNewDevices context.entry.usage dir.now (map file_of entries.now) files.disks.items) }
    ensures each { IfOk result (λ files. length files.filled.items ≡ length entries.now) }
    ensures filled { IfOk result (λ files. AreFilled (map file_of entries.now) files.filled.items) }
    ensures known { IfOk result
        (λ files. KnowsOpened context.entry.usage (map file_of entries.now) files.known) }
    ensures told { IfOk result (λ files. is_read_only context.entry.usage ≡ false
        → AreKnown files.known files.disks.items) }
    ensures apart { IfOk result (λ files. is_read_only context.entry.usage ≡ false
        → AreApart files.disks.items) }
    ensures own { OnOk result (is_read_only context.entry.usage ≡ false
        → AreOwnPaths (R.lists rt.now) dir.now (map file_of entries.now)) }
    ensures fault { IfErr result (IsOpeningFault context.entry.usage (map file_of entries.now)) }
{
    let mut pool = HandlePool::new(rt.alloc(), rt.clone()?, OPEN_FILES)?;
    let mut files = OpenFiles::new(rt.alloc());
    push_devices(rt, watch, context, &mut pool, dir, entries, &mut files)?;
    Ok(files)
}

/// Opens the files of these entries by a new pool of handles, and adds the devices of those that are not empty.
fn push_devices<'a, R: Files + AllocGlobal + Clone + Drop + Lookup, P: Watch>(
    rt: &R,
    watch: &'a P,
    context: DeviceContext<'a>,
    pool: &mut HandlePool<R>,
    dir: &str,
    entries: &[FileEntry],
    files: &mut OpenFiles<DataDisk<'a, R, P>>,
) -> Result<(), Fault>
    requires no_device { pool.old ≡ new_pool }
    requires no_disk { files.old.disks.items ≡ [] }
    requires no_file { files.old.filled.items ≡ [] }
    ensures devices { OnOk result
        (AreNewDevices context.entry.usage dir.now
        (map file_of entries.now) files.new.disks.items) }
    ensures each { OnOk result (length files.new.filled.items ≡ length entries.now) }
    ensures filled { OnOk result (AreFilled (map file_of entries.now) files.new.filled.items) }
    ensures known { OnOk result
        (KnowsOpened context.entry.usage (map file_of entries.now) files.new.known) }
    ensures told { OnOk result (is_read_only context.entry.usage ≡ false
        → AreKnown files.new.known files.new.disks.items) }
    ensures apart { OnOk result (is_read_only context.entry.usage ≡ false
        → AreApart files.new.disks.items) }
    ensures own { OnOk result (is_read_only context.entry.usage ≡ false
        → AreOwnPaths (R.lists rt.now) dir.now (map file_of entries.now)) }
    ensures fault { IfErr result (IsOpeningFault context.entry.usage (map file_of entries.now)) }
{
    let mut folder = OpenFolder::new(rt.alloc());
    for entry in entries {
        folder.go_to(rt, watch, context.usage, dir, &entry.path)?;
        let file = open_entry(rt, watch, context, pool, dir, entry)?;
        let length = file.opening.len;
        hint_at_longer(rt.alloc(), watch, context.usage, dir, entry, length);
        folder.add(
            rt.alloc(),
            watch,
            context.usage,
            dir,
            &entry.path,
            file.opening,
        )?;
        files.push(file)?;
    }
    look_at_paths(rt, watch, context.usage, dir, entries)?;
    folder.end(rt, watch, context.usage, dir)?;
    files.known = folder.into_files();
    Ok(())
}

/// Adds an item, if there is one, after the others.
fn push_some<T: Drop>(items: &mut Vec<T>, item: Option<T>) -> Result<(), AllocError>
    ensures { OnOk result (IsPushed items.old.items item items.new.items) }
{
    match item {
        Some(item) => {
            items.push(item)?;
            Ok(())
        }
        None => Ok(()),
    }
}

/// Opens the file of an entry. It is made where it is missing, but for a read-only use. An empty entry has no device.
/// Errors: a device failed; out of memory.
fn open_entry<'a, R: Files + AllocGlobal + Clone + Drop + Lookup, P: Watch>(
    rt: &R,
    watch: &'a P,
    context: DeviceContext<'a>,
    pool: &mut HandlePool<R>,
    dir: &str,
    entry: &FileEntry,
) -> Result<OpenFile<DataDisk<'a, R, P>>, Fault>
    ensures opened { IfOk result (λ file.
        IsOpenedFor context.entry.usage dir.now (file_of entry.now) pool.old.made file.disk
        pool.new.made) }
    ensures empty { IfOk result (λ file. entry.now.length ≡ 0 → file.is_filled ≡ false) }
    ensures filled { IfOk result
        (λ file. entry.now.length ≢ 0 → file.is_filled ≡ nat_lt 0 file.opening.len) }
    ensures identity { IfOk result (λ file.
        IfSome file.disk (λ disk. identity_of disk ≡ file.opening.identity)) }
    ensures fault { IfErr result IsCallFault }
{
    let path = data_path(rt.alloc(), dir, &entry.path)?;
    if entry.length == 0 {
        let opening = open_empty(rt, watch, context.usage, path.as_path())?;
        return Ok(OpenFile {
            disk: None,
            opening,
            is_filled: false,
        });
    }
    open_device(rt, watch, context, pool, path)
}

/// Opens a file by a pool, and gives its device, which reads blocks ahead and tells the watch of its calls. Errors:
/// the file can't be opened, which the watch is told with its name; out of memory.
fn open_device<'a, R: Files + AllocGlobal + Clone + Drop + Lookup, P: Watch>(
    rt: &R,
    watch: &'a P,
    context: DeviceContext<'a>,
    pool: &mut HandlePool<R>,
    path: PathBuf,
) -> Result<OpenFile<DataDisk<'a, R, P>>, Fault>
    ensures some { IfOk result (λ file. IsSome file.disk) }
    ensures device { IfOk result (λ file.
        IfSome file.disk (IsNewDevice context.entry.usage pool.new.made (path_buf_bytes path))) }
    ensures one_more { OnOk result (pool.new.made ≡ pool.old.made + 1) }
    ensures filled { IfOk result (λ file. file.is_filled ≡ nat_lt 0 file.opening.len) }
    ensures identity { IfOk result (λ file.
        IfSome file.disk (λ disk. identity_of disk ≡ file.opening.identity)) }
    ensures fault { IfErr result IsCallFault }
{
    let name = fault_name(rt.alloc(), watch, path.as_path().as_str())?;
    let place = Place::new(rt, watch, path.as_path().as_str());
    match pooled(pool, context.usage, path.into_string()) {
        Ok(file) => {
            let opening = file.opening();
            let disk = device_of(context, file, place);
            let disk = Watched::with_alarm(disk, watch, name, context.alarm);
            Ok(OpenFile {
                disk: Some(disk),
                opening,
                is_filled: opening.len > 0,
            })
        }
        Err(_) => Err(opening_fault(watch, name)),
    }
}

/// Opens a file by a pool, for a use. What a seed without a log finds in its files counts as synced: it has not to be
/// kept.
fn pooled<R: Files + Drop>(
    pool: &mut HandlePool<R>,
    usage: FileUse,
    path: String,
) -> Result<PooledDisk<R>, DeviceFault>
    ensures file { IfOk result (IsNewFile usage pool.new.made (string_bytes path)) }
    ensures one_more { OnOk result (pool.new.made ≡ pool.old.made + 1) }
{
    match usage {
        FileUse::Fetch | FileUse::SeedByLog => pool.writing(path),
        FileUse::Seed => Ok(pool.writing(path)?.assume_synced()),
        FileUse::ReadOnly => pool.reading(path),
    }
}

/// Puts a file below the layers of a device: a sync passes only where the file was touched, blocks are read ahead,
/// and writes are refused once the seal is closed, or from the start for a read-only use. The use tells whether the
/// file counts as touched when it is opened.
fn device_of<'a, R: Files + AllocGlobal + Clone + Drop + Lookup, P: Watch>(
    context: DeviceContext<'a>,
    file: PooledDisk<R>,
    place: Option<Place<'a, R, P>>,
) -> SealedDisk<'a, ReadAheadDisk<'a, GaplessDisk<TouchedDisk<'a, R, P>>>>
    ensures inner { let touched = is_touched_at_first context.entry.usage
        in result.inner ≡ new_ahead (new_gapless (new_touched file touched) false) }
    ensures is_sealed { result.is_sealed ≡ is_read_only context.entry.usage }
    ensures refused { result.refused ≡ 0 }
{
    let file = TouchedDisk::new(file, context.usage.is_touched_at_first(), place);
    let ahead = ReadAheadDisk::new(GaplessDisk::new(file, false), context.digests);
    if context.usage.is_read_only() {
        SealedDisk::closed(ahead, context.seal)
    } else {
        SealedDisk::new(ahead, context.seal)
    }
}

/// The fault of a file that could not be opened. The watch is told the file's name, if it is known.
fn opening_fault<P: Watch>(watch: &P, name: Option<String>) -> Fault
    ensures { result ≡ device }
{
    if let Some(name) = name {
        watch.tell_fault(FileCall::Open, name.as_str());
    }
    Fault::Device
}

/// Opens the file of an empty entry, and makes it where there is none, but for a read-only use. Errors: it can't be
/// opened, of which the watch is told.
fn open_empty<R: Files + AllocGlobal, P: Watch>(
    rt: &R,
    watch: &P,
    usage: FileUse,
    file: Path<'_>,
) -> Result<Opening, Fault>
    ensures { IfErr result (λ fault. fault ≡ device) }
{
    let opened = match usage {
        FileUse::Fetch | FileUse::Seed | FileUse::SeedByLog => {
            FileDisk::writing(rt, file.as_str())
        }
        FileUse::ReadOnly => FileDisk::reading(rt, file.as_str()),
    };
    let opening = match opened {
        Ok(disk) => Ok(disk.opening()),
        Err(_) => Err(Fault::Device),
    };
    told(rt.alloc(), watch, FileCall::Open, file.as_str(), opening)
}
