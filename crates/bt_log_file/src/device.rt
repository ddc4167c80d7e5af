//! The device of a log's file.
ghost use Rattle.std.specs.Prelude.{◌≡◌, true, IfErr, IfOk};
ghost use Rattle.bt_devices.specs.Disk.{new_ahead};
ghost use Rattle.bt_devices.specs.SealedDisk.{new_sealed};
ghost use Rattle.bt_log_file.specs.Device.{new_log_device};
ghost use Rattle.bt_log_file.specs.GaplessDisk.{new_gapless};
ghost use Rattle.bt_log_file.specs.TouchedDisk.{new_touched};
ghost use Rattle.bt_log_file.specs.Opening.{IsCallFaultBy};

use crate::gapless_disk::GaplessDisk;
use crate::log_folder::{LogFolder, OpenedLog};
use crate::place::Place;
use crate::touched_disk::TouchedDisk;
use bt_check::{Fault, fault_name, told};
use bt_devices::{Alarm, DigestCache, ReadAheadDisk, Seal, SealedDisk, Watched};
use bt_disk::PooledDisk;
use bt_folder::Lookup;
use bt_progress::{FileCall, Watch};
use std::cell::RefCell;
use std::rt::Files;

/// The device of a log's file. An engine has devices of one type, so this is the type of data files too: a device that
/// tells of its calls, rings where a write fails, may be closed to writes, is read ahead, and leaves no gap. Only
/// blocks are read ahead, and a log is mostly read by greater parts, so hardly anything of a log is.
pub type LogDisk<'a, R, P> = Watched<
    'a,
    SealedDisk<'a, ReadAheadDisk<'a, GaplessDisk<TouchedDisk<'a, R, P>>>>,
    P,
>;

/// What a log's device shares with what is outside of it.
#[derive(Clone, Copy)]
pub struct LogContext<'a> {
    /// Where digests are put that are made ahead.
    pub digests: &'a RefCell<DigestCache>,
    /// Rung where a write fails.
    pub alarm: &'a Alarm,
    /// A seal of the log alone, or one that is never closed: where data files are closed to writes, the log is not.
    pub seal: &'a Seal,
}

/// Opens the file of a log to be read and written: one that is absent is made, with no bytes, and one that is there
/// keeps them. What is there and is no regular file is a device fault, told without waiting on it. Symbolic links
/// are followed. A fault is told of, and so is the first call on the device that fails.
pub(crate) fn open_device<'a, 'p, R: LogFolder, P: Watch>(
    rt: &R,
    watch: &'a P,
    context: LogContext<'a>,
    path: &'p str,
) -> Result<OpenedLog<'p, LogDisk<'a, R, P>>, Fault>
    ensures path { IfOk result (λ log. log.path.now ≡ path.now) }
    ensures device { IfOk result (λ log. log.disk ≡ new_log_device path.now log.opening.identity) }
    ensures opening { IfOk result (λ log. R.opens rt.now path.now log.opening) }
    ensures fault { IfErr result (IsCallFaultBy (R.refuses rt.now path.now)) }
{
    let name = fault_name(rt.alloc(), watch, path)?;
    let opened = told(
        rt.alloc(),
        watch,
        FileCall::Open,
        path,
        rt.open_log_file(path),
    )?;
    let OpenedLog {
        path,
        disk,
        opening,
    } = opened;
    let disk = device_of(context, disk, Place::new(rt, watch, path));
    let disk = Watched::with_alarm(disk, watch, name, context.alarm);
    Ok(OpenedLog {
        path,
        disk,
        opening,
    })
}

/// A file as a device that is written without gaps, until the log's seal is closed, and counts as touched.
fn device_of<'a, R: Files + AllocGlobal + Clone + Drop + Lookup, P: Watch>(
    context: LogContext<'a>,
    file: PooledDisk<R>,
    place: Option<Place<'a, R, P>>,
) -> SealedDisk<'a, ReadAheadDisk<'a, GaplessDisk<TouchedDisk<'a, R, P>>>>
    ensures { result ≡ new_sealed (new_ahead (new_gapless (new_touched file true) true)) }
{
    let file = GaplessDisk::new(TouchedDisk::new(file, true, place), true);
    SealedDisk::new(ReadAheadDisk::new(file, context.digests), context.seal)
}
