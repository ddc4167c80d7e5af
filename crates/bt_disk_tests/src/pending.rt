//! Hints that wait to be written to a log.

use crate::bytes::tell_whether;
use crate::hints::{proof_from, run_from};
use crate::logs::Log;
use bt_disk::Disk;
use bt_engine_state::{FlushError, Pending};
use bt_resume::{Hint, ResumeLog};
use bt_rows::{RowError, Words, tell};
use std::alloc::{AllocError, Global};
use std::fmt::Write;

/// No file has more blocks.
const MAX_BLOCK_COUNT: u32 = 1 << 26;

/// A hint that is to wait, or a call of those that wait, which are written to the log that is there.
pub fn pending_row(
    alloc: Global,
    pending: &mut Pending,
    log: &mut Log,
    words: &mut Words,
    out: &mut String,
) -> Result<(), RowError> {
    match words.word() {
        "proof" => tell_added(out, added(pending, proof_from(alloc, words)?)?),
        "marks" => tell_added(out, added(pending, run_from(words)?)?),
        "mark" => mark_row(pending, words, out),
        "count" => tell_waiting(pending, out),
        "clear" => clear_row(pending, out),
        "write" => write_row(pending, log, out),
        _ => Err(RowError::Unread),
    }
}

/// A mark: its file and its block.
fn mark_row(pending: &mut Pending, words: &mut Words, out: &mut String) -> Result<(), RowError> {
    let file = words.number()?;
    let block = words.number()?;
    tell_added(out, added_mark(pending, file, block)?)
}

/// Lets a hint wait, where it can be read back, and says whether it can.
fn added(pending: &mut Pending, hint: Hint) -> Result<bool, AllocError> {
    if !hint.can_be_read() {
        return Ok(false);
    }
    pending.reserve(1)?;
    pending.push(hint);
    Ok(true)
}

fn added_mark(pending: &mut Pending, file: u32, block: u32) -> Result<bool, AllocError> {
    if block >= MAX_BLOCK_COUNT {
        return Ok(false);
    }
    pending.reserve(1)?;
    pending.push_mark(file, block);
    Ok(true)
}

fn tell_added(out: &mut String, is_added: bool) -> Result<(), RowError> {
    tell_whether(out, is_added, "done", "not to be read back")
}

/// Tells how many wait.
fn tell_waiting(pending: &Pending, out: &mut String) -> Result<(), RowError> {
    if pending.is_empty() {
        return tell(out, "none waits");
    }
    let count = pending.len();
    Ok(write!(out, "{count} wait")?)
}

fn clear_row(pending: &mut Pending, out: &mut String) -> Result<(), RowError> {
    pending.clear();
    tell(out, "done")
}

fn write_row(pending: &mut Pending, log: &mut Log, out: &mut String) -> Result<(), RowError> {
    match log {
        Log::Empty => Err(RowError::Unread),
        Log::Memory(log) => tell_written(out, written(pending, log)),
        Log::Faulty(log) => tell_written(out, written(pending, log)),
    }
}

fn written<D: Disk + Drop>(
    pending: &mut Pending,
    log: &mut ResumeLog<D>,
) -> Result<(), FlushError> {
    pending.write_to(log)
}

fn tell_written(out: &mut String, written: Result<(), FlushError>) -> Result<(), RowError> {
    match written {
        Ok(()) => tell(out, "done"),
        Err(cause) => Ok(write!(out, "{cause}")?),
    }
}
