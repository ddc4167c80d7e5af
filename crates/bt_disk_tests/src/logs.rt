//! Logs of hints, on devices in memory.

use crate::calls::tell_done;
use crate::device::{Device, taken};
use crate::hints::{proof_from, run_from, tell_count, tell_hints};
use crate::unreadable::Unreadable;
use bt_disk::{DeviceFault, Disk, FaultDisk, MemoryDisk};
use bt_resume::{AppendError, Hint, Hints, LogError, Refused, ResumeLog};
use bt_rows::{RowError, Words, put, tell};
use bt_tree::Hash32;
use std::alloc::Global;
use std::fmt::Write;
use std::mem;

/// A log, on the device that it took.
#[derive(Drop)]
pub enum Log {
    Empty,
    Memory(ResumeLog<MemoryDisk>),
    Faulty(ResumeLog<FaultDisk<MemoryDisk>>),
}

/// A log that is opened on a device, which it gives back in the end, or a call of the one that is there.
pub fn log_row(
    alloc: Global,
    log: &mut Log,
    device: &mut Device<'_>,
    words: &mut Words,
    out: &mut String,
) -> Result<(), RowError> {
    match words.word() {
        "open" => open_row(alloc, log, device, words, out),
        "end" => end_row(log, device, out),
        "unreadable" => unreadable_row(alloc, words, out),
        name => any_row(alloc, log, name, words, out),
    }
}

/// The log of a torrent, by its infohash.
fn open_row(
    alloc: Global,
    log: &mut Log,
    device: &mut Device<'_>,
    words: &mut Words,
    out: &mut String,
) -> Result<(), RowError> {
    let infohash = words.digest(alloc)?;
    match opened_on(alloc, device, infohash) {
        Some(opened) => put_opened(log, device, opened, out),
        None => Err(RowError::Unread),
    }
}

/// The log on a device in memory or of faults, of which the place is empty then. Another device stays.
fn opened_on<'a>(
    alloc: Global,
    device: &mut Device<'a>,
    infohash: Hash32,
) -> Option<Result<Log, Refused<Device<'a>, LogError>>> {
    match taken(device) {
        Device::Memory(disk) => Some(in_memory(opened(alloc, disk, infohash))),
        Device::Faulty(disk) => Some(with_faults(opened(alloc, disk, infohash))),
        other => {
            put(device, other);
            None
        }
    }
}

fn in_memory<'a>(
    opened: Result<ResumeLog<MemoryDisk>, Refused<MemoryDisk, LogError>>,
) -> Result<Log, Refused<Device<'a>, LogError>> {
    match opened {
        Ok(log) => Ok(Log::Memory(log)),
        Err(refused) => {
            let Refused { disk, cause } = refused;
            let disk = Device::Memory(disk);
            Err(Refused { disk, cause })
        }
    }
}

fn with_faults<'a>(
    opened: Result<ResumeLog<FaultDisk<MemoryDisk>>, Refused<FaultDisk<MemoryDisk>, LogError>>,
) -> Result<Log, Refused<Device<'a>, LogError>> {
    match opened {
        Ok(log) => Ok(Log::Faulty(log)),
        Err(refused) => {
            let Refused { disk, cause } = refused;
            let disk = Device::Faulty(disk);
            Err(Refused { disk, cause })
        }
    }
}

/// Opens the log of a torrent. Where memory is refused, the device that comes back is asked once more.
fn opened<D: Disk + Drop>(
    alloc: Global,
    disk: D,
    infohash: Hash32,
) -> Result<ResumeLog<D>, Refused<D, LogError>> {
    match ResumeLog::attach(alloc, disk, infohash) {
        Ok(log) => Ok(log),
        Err(refused) => opened_again(alloc, refused, infohash),
    }
}

fn opened_again<D: Disk + Drop>(
    alloc: Global,
    refused: Refused<D, LogError>,
    infohash: Hash32,
) -> Result<ResumeLog<D>, Refused<D, LogError>> {
    if refused.cause != LogError::OutOfMemory {
        return Err(refused);
    }
    let Refused { disk, cause: _ } = refused;
    ResumeLog::attach(alloc, disk, infohash)
}

/// How many hints a log has that was opened; else its device is back.
fn put_opened<'a>(
    log: &mut Log,
    device: &mut Device<'a>,
    opened: Result<Log, Refused<Device<'a>, LogError>>,
    out: &mut String,
) -> Result<(), RowError> {
    match opened {
        Ok(opened) => {
            put(log, opened);
            tell_opened(log, out)
        }
        Err(refused) => {
            let Refused { disk, cause } = refused;
            put(device, disk);
            tell_cause(out, cause)
        }
    }
}

fn tell_opened(log: &Log, out: &mut String) -> Result<(), RowError> {
    match log {
        Log::Empty => Err(RowError::Unread),
        Log::Memory(log) => tell_count(out, hints_of(log)),
        Log::Faulty(log) => tell_count(out, hints_of(log)),
    }
}

fn tell_cause(out: &mut String, cause: LogError) -> Result<(), RowError> {
    Ok(write!(out, "{cause}")?)
}

/// The log gives its device back.
fn end_row(log: &mut Log, device: &mut Device<'_>, out: &mut String) -> Result<(), RowError> {
    match mem::replace(log, Log::Empty) {
        Log::Empty => return Err(RowError::Unread),
        Log::Memory(log) => put(device, Device::Memory(log.into_disk())),
        Log::Faulty(log) => put(device, Device::Faulty(log.into_disk())),
    }
    tell(out, "a device")
}

/// What opening a log answers on a device of a length, of which no read succeeds but one of its first bytes, and
/// no write or sync.
fn unreadable_row(alloc: Global, words: &mut Words, out: &mut String) -> Result<(), RowError> {
    let len = words.long()?;
    let front = words.bytes(alloc)?;
    match ResumeLog::attach(alloc, Unreadable::new(len, front), [5; 32]) {
        Ok(_) => tell(out, "a log"),
        Err(refused) => tell_cause(out, refused.cause),
    }
}

fn any_row(
    alloc: Global,
    log: &mut Log,
    name: &str,
    words: &mut Words,
    out: &mut String,
) -> Result<(), RowError> {
    match log {
        Log::Empty => Err(RowError::Unread),
        Log::Memory(log) => call_row(alloc, log, name, words, out),
        Log::Faulty(log) => call_row(alloc, log, name, words, out),
    }
}

fn call_row<D: Disk + Drop>(
    alloc: Global,
    log: &mut ResumeLog<D>,
    name: &str,
    words: &mut Words,
    out: &mut String,
) -> Result<(), RowError> {
    match name {
        "marks" => marks_row(log, words, out),
        "proof" => proof_row(alloc, log, words, out),
        "flush" => tell_done(out, flushed(log)),
        "reload" => reload_row(log, out),
        "hints" => tell_hints(alloc, out, hints_of(log)),
        "format" => tell_format(out, log),
        _ => Err(RowError::Unread),
    }
}

/// Marks of a file: the first block, and how many.
fn marks_row<D: Disk + Drop>(
    log: &mut ResumeLog<D>,
    words: &mut Words,
    out: &mut String,
) -> Result<(), RowError> {
    let hint = run_from(words)?;
    tell_appended(out, appended(log, &hint))
}

fn tell_format<D: Disk + Drop>(out: &mut String, log: &ResumeLog<D>) -> Result<(), RowError> {
    let format = log.format();
    Ok(write!(out, "{format}")?)
}

/// A proof: its key and its digests.
fn proof_row<D: Disk + Drop>(
    alloc: Global,
    log: &mut ResumeLog<D>,
    words: &mut Words,
    out: &mut String,
) -> Result<(), RowError> {
    let hint = proof_from(alloc, words)?;
    tell_appended(out, appended(log, &hint))
}

/// None where the hint could not be read back.
fn appended<D: Disk + Drop>(
    log: &mut ResumeLog<D>,
    hint: &Hint,
) -> Option<Result<(), AppendError>> {
    if !hint.can_be_read() {
        return None;
    }
    Some(log.append(hint))
}

fn tell_appended(
    out: &mut String,
    appended: Option<Result<(), AppendError>>,
) -> Result<(), RowError> {
    match appended {
        Some(Ok(())) => tell(out, "done"),
        Some(Err(error)) => Ok(write!(out, "{error}")?),
        None => tell(out, "not to be read back"),
    }
}

fn flushed<D: Disk + Drop>(log: &mut ResumeLog<D>) -> Result<(), DeviceFault> {
    log.flush()
}

fn hints_of<D: Disk + Drop>(log: &ResumeLog<D>) -> &Hints {
    log.hints()
}

/// Reads the log again, and tells how many hints it has. Where memory is refused and as many hints as before are
/// there, it is asked once more.
fn reload_row<D: Disk + Drop>(log: &mut ResumeLog<D>, out: &mut String) -> Result<(), RowError> {
    let before = hints_of(log).len();
    let mut answer = log.reload();
    if answer == Err(LogError::OutOfMemory) && hints_of(log).len() == before {
        answer = log.reload();
    }
    match answer {
        Ok(()) => tell_count(out, hints_of(log)),
        Err(cause) => tell_cause(out, cause),
    }
}
