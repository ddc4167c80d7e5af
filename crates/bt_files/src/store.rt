//! The store of a torrent's files: an engine over them, from when it is opened to when it is flushed.
ghost use Rattle.std.specs.Prelude.{◌≡◌, false, Bool, List, Ok, Err, None, Some, length, map, IfOk, IfErr, IfSome, OnOk};
ghost use Rattle.sha2.specs.Sha256.{sha256};
ghost use Rattle.bt_machine.specs.declared.error.FlushError.{FlushError};
ghost use Rattle.bt_machine.specs.declared.event.Event.TheVariants.{Flush};
ghost use Rattle.bt_machine.specs.declared.event.Answer.TheVariants.{Flushed};
ghost use Rattle.bt_machine.specs.Start.{device_count};
ghost use Rattle.bt_machine.specs.View.{StepsTo};
ghost use Rattle.bt_engine.specs.Leads.{LeadsTo};
ghost use Rattle.bt_check.specs.Fault.{out_of_memory};
ghost use Rattle.bt_meta.specs.Files.{file_of};
ghost use Rattle.bt_files.specs.DataFiles.{AreFilled, AreNewDevices};
ghost use Rattle.bt_files.specs.FileUse.{is_read_only, use_with};
ghost use Rattle.bt_files.specs.OpenFolder.{IsCallFault, IsOpeningFault, KnowsOpened};
ghost use Rattle.bt_files.specs.OwnFiles.{AreApart, AreKnown};
ghost use Rattle.bt_files.specs.OwnPaths.{AreOwnPaths};
ghost use Rattle.bt_files.specs.Store.{HasBegun, IsFlushFault, IsOpened, IsOpenFault, IsSameButPending, flush_fault};
ghost use Rattle.bt_files.specs.StoreLog.{IsLogApart};

use crate::adoption::adopt_files;
use crate::data_files::{DataDisk, OpenFiles, open_devices};
use crate::device_context::DeviceContext;
use crate::file_use::FileUse;
use crate::hints::hint_at_absence;
use crate::store_log::{hint_at_unmarked, look_at_log, open_log_at};
use bt_check::Fault;
use bt_devices::CachedLanes;
use bt_disk::Disk;
use bt_engine::{Engine, FlushError, StartError};
use bt_folder::Lookup;
use bt_meta::{FileEntry, Torrent};
use bt_progress::Watch;
use bt_resume::ResumeLog;
use bt_tree::NodeHash;
use std::alloc::Global;
use std::rt::Files;

/// The store of a torrent's data files: an engine over their devices. A digest that was made ahead of time is looked
/// up in a cache; any other is computed.
pub type Store<'a, R, P> = Engine<DataDisk<'a, R, P>, CachedLanes<'a>>;

/// Opens the data files of a torrent in the folder `dir`, in the order of the torrent, and begins an engine over
/// them. For any use but a read-only one, folders and files that are missing are made.
///
/// Without a log the engine takes in what the files have: it reads them, and marks the blocks that are right. With
/// the path of a log, that log is opened, or made where there is none, and the blocks that it marks are those that
/// count: whatever else the files have is not taken in.
///
/// Errors: the first fault ends it. Where a look at the paths shows that the log's file is one of the torrent's, the
/// log is refused before any file is made.
pub(crate) fn open_store<'a, R: Files + AllocGlobal + Clone + Drop + Lookup, P: Watch>(
    rt: &R,
    watch: &'a P,
    context: DeviceContext<'a>,
    torrent: Torrent,
    dir: &str,
    log: Option<&str>,
) -> Result<Store<'a, R, P>, Fault>
    ensures opened { IfOk result (IsOpened context.entry.usage dir.now log.entry torrent) }
    ensures looked { OnOk result (IsLogApart (R.tells rt.now) dir.now torrent.files log.entry) }
    ensures own { OnOk result (is_read_only context.entry.usage ≡ false
        → AreOwnPaths (R.lists rt.now) dir.now torrent.files) }
    ensures fault { IfErr result (IsOpenFault context.entry.usage torrent log.entry) }
{
    look_at_log(rt, watch, dir, &torrent, log)?;
    hint_at_absence(rt, watch, context.usage, dir, &torrent);
    let mut files = open_files(rt, watch, context, dir, torrent.files(), log)?;
    let attached = open_log_at(rt, watch, context, &mut files.known, dir, &torrent, log)?;
    let hash = CachedLanes::new(context.digests);
    begin_store(
        rt.alloc(),
        watch,
        context.usage,
        torrent,
        files,
        attached,
        hash,
    )
}

/// Opens the files of these entries, as `open_devices` does. `FileUse::with_log` tells what they are opened for,
/// since that depends on whether there is a log.
fn open_files<'a, R: Files + AllocGlobal + Clone + Drop + Lookup, P: Watch>(
    rt: &R,
    watch: &'a P,
    context: DeviceContext<'a>,
    dir: &str,
    entries: &[FileEntry],
    log: Option<&str>,
) -> Result<OpenFiles<DataDisk<'a, R, P>>, Fault>
    ensures devices { IfOk result (λ files. AreNewDevices
        (use_with context.entry.usage log.entry) dir.now
        (map file_of entries.now) files.disks.items) }
    ensures each { IfOk result (λ files. length files.filled.items ≡ length entries.now) }
    ensures filled { IfOk result (λ files. AreFilled (map file_of entries.now) files.filled.items) }
    ensures known { IfOk result
        (λ files. KnowsOpened context.entry.usage (map file_of entries.now) files.known) }
    ensures told { IfOk result (λ files. is_read_only context.entry.usage ≡ false
        → AreKnown files.known files.disks.items) }
    ensures apart { IfOk result (λ files. is_read_only context.entry.usage ≡ false
        → AreApart files.disks.items) }
    ensures own { OnOk result (is_read_only context.entry.usage ≡ false
        → AreOwnPaths (R.lists rt.now) dir.now (map file_of entries.now)) }
    ensures fault { IfErr result (IsOpeningFault context.entry.usage (map file_of entries.now)) }
{
    let used = DeviceContext {
        usage: context.usage.with_log(log),
        digests: context.digests,
        alarm: context.alarm,
        seal: context.seal,
        log_seal: context.log_seal,
    };
    open_devices(rt, watch, used, dir, entries)
}

/// Starts an engine for a torrent over the devices of its opened files. With a log, the blocks that the log marks are
/// those that count; without one, the engine takes in what the files have. Errors: a read failed; out of memory.
fn begin_store<'a, D: Disk + Drop, P: Watch>(
    alloc: Global,
    watch: &P,
    usage: FileUse,
    torrent: Torrent,
    files: OpenFiles<D>,
    log: Option<ResumeLog<D>>,
    hash: CachedLanes<'a>,
) -> Result<Engine<D, CachedLanes<'a>>, Fault>
    requires devices { length files.disks.items ≡ device_count torrent.files }
    requires each { length files.filled.items ≡ length torrent.files }
    requires own_log { IfSome log (λ log. log.infohash ≡ torrent.infohash) }
    ensures begun { IfOk result
        (HasBegun D.conduct sha256 torrent files.disks.items log files.filled.items) }
    ensures fault { IfErr result IsCallFault }
{
    let OpenFiles {
        disks,
        filled,
        known,
    } = files;
    drop(known);
    match log {
        Some(log) => {
            let engine = begin_with_log(alloc, torrent, disks, log, hash)?;
            hint_at_unmarked(watch, &engine, usage, &filled);
            Ok(engine)
        }
        None => {
            expect_reads(watch, torrent.files(), &filled);
            begin(alloc, torrent, disks, filled, hash)
        }
    }
}

/// Tells the watch how many bytes are to be read: all of each file that `filled` says has some.
fn expect_reads<P: Watch>(watch: &P, files: &[FileEntry], filled: &[bool]) {
    for (number, file) in files.iter().enumerate() {
        if filled.get(number) == Some(&true) {
            watch.expect(file.length);
        }
    }
}

/// Starts an engine for a torrent over the devices of its files, without a log, and takes in what these files have.
/// An empty file has no device. `filled` tells for each file of the torrent whether it has bytes; a file that has
/// none is not read. Errors: a read failed; out of memory.
pub(crate) fn begin<'a, D: Disk + Drop>(
    alloc: Global,
    torrent: Torrent,
    disks: Vec<D>,
    filled: Vec<bool>,
    hash: CachedLanes<'a>,
) -> Result<Engine<D, CachedLanes<'a>>, Fault>
    requires devices { length disks.items ≡ device_count torrent.files }
    requires each { length filled.items ≡ length torrent.files }
    ensures begun { IfOk result
        (HasBegun D.conduct sha256 torrent disks.items None filled.items) }
    ensures fault { IfErr result IsCallFault }
{
    match Engine::start(alloc, torrent, hash, disks, None) {
        Ok(mut engine) => {
            adopt_files(&mut engine, &filled)?;
            Ok(engine)
        }
        Err(refused) => match refused.cause {
            StartError::OutOfMemory => Err(Fault::OutOfMemory),
            StartError::DiskCount | StartError::OtherLog => unreachable!(),
        },
    }
}

/// Starts an engine for a torrent over the devices of its files, with the torrent's log. The log tells which blocks
/// count, so no file is taken in, whatever bytes it has. Errors: out of memory.
pub(crate) fn begin_with_log<'a, D: Disk + Drop>(
    alloc: Global,
    torrent: Torrent,
    disks: Vec<D>,
    log: ResumeLog<D>,
    hash: CachedLanes<'a>,
) -> Result<Engine<D, CachedLanes<'a>>, Fault>
    requires devices { length disks.items ≡ device_count torrent.files }
    requires own_log { log.infohash ≡ torrent.infohash }
    ensures begun { IfOk result (λ engine. (filled : List Bool)
        → HasBegun D.conduct sha256 torrent disks.items (Some log) filled engine) }
    ensures fault { IfErr result (λ fault. fault ≡ out_of_memory) }
{
    match Engine::start(alloc, torrent, hash, disks, Some(log)) {
        Ok(engine) => Ok(engine),
        Err(refused) => match refused.cause {
            StartError::OutOfMemory => Err(Fault::OutOfMemory),
            StartError::DiskCount | StartError::OtherLog => unreachable!(),
        },
    }
}

/// Flushes an engine: its devices put all that was written on the disk, and then what waits for the engine's log, if
/// it has one, is written to the log. Nothing else of the engine changes. Errors: a device failed, or the log is
/// full; what waited for the log waits still.
pub fn finish<D: Disk + Drop, H: NodeHash>(engine: &mut Engine<D, H>) -> Result<(), Fault>
    ensures flushed { OnOk result
        (StepsTo D.conduct H.digest engine.old Flush (Flushed (Ok tt)) engine.new) }
    ensures failed { IfErr result (λ fault. (error : FlushError) × (fault ≡ flush_fault error)
        × StepsTo D.conduct H.digest engine.old Flush (Flushed (Err error)) engine.new) }
    ensures same { IsSameButPending engine.old.state engine.new.state }
    ensures run { LeadsTo D.conduct H.digest engine.old engine.new }
    ensures fault { IfErr result (IsFlushFault engine.old.log) }
{
    match engine.flush() {
        Ok(()) => Ok(()),
        Err(error) => Err(flush_fault(error)),
    }
}

/// The fault by which the program ends where a flush was refused.
pub fn flush_fault(error: FlushError) -> Fault
    ensures { result ≡ flush_fault error }
{
    match error {
        FlushError::Device => Fault::Device,
        FlushError::LogFull => Fault::LogFull,
    }
}
