//! Sessions, a peer and peers in turn between whose turns the engine is flushed.

use crate::engine::TestEngine;
use crate::links::peers_with_flushes;
use crate::partner::{TestReader, TestWriter};
use crate::row::{Row, row_of};
use crate::sessions::{tell_end, tell_rest};
use bt_machine::{ConnectError, FlushError};
use bt_session::{Flushing, PeerEnd, SessionEnd, end_text, meet_peer, run_session_with_flushes};
use std::alloc::{AllocError, Global};
use std::fmt::Write;

/// Runs a session until all files are complete, with a flush after each turn whose number is a multiple of the first
/// word, and tells of it.
pub fn flushing_row(
    alloc: Global,
    engine: &mut TestEngine,
    words: &str,
    out: &mut String,
) -> Result<(), AllocError> {
    let (flushing, words) = flushing_of(words);
    match row_of(alloc, words)? {
        Some(row) => session(alloc, engine, flushing, row, out),
        None => out.push_str("no session\n"),
    }
}

/// Tries three peers with these flushes.
pub fn flushing_peers_row(
    alloc: Global,
    engine: &mut TestEngine,
    words: &str,
    out: &mut String,
) -> Result<(), AllocError> {
    let (flushing, words) = flushing_of(words);
    peers_with_flushes(alloc, engine, flushing, words, out)
}

/// Has a session with a peer that was reached, until all files are complete, with these flushes and one behind it, and
/// tells of it. Where no word follows the first, the peer is not reached.
pub fn meeting_row(
    alloc: Global,
    engine: &mut TestEngine,
    words: &str,
    out: &mut String,
) -> Result<(), AllocError> {
    let (flushing, words) = flushing_of(words);
    if words.is_empty() {
        return no_meeting(alloc, engine, flushing, out);
    }
    match row_of(alloc, words)? {
        Some(row) => meeting(alloc, engine, flushing, row, out),
        None => out.push_str("no session\n"),
    }
}

/// When a flush is due, by the first word: after turns of such numbers, never where it is 0 or no number; and the other
/// words.
fn flushing_of(words: &str) -> (Flushing, &str) {
    let (every, words) = words.split_once(' ').unwrap_or((words, ""));
    (flushing_each(every.parse().unwrap_or(0)), words)
}

/// A flush is due after each turn whose number is a multiple of this; for 0 never.
pub fn flushing_each(every: u32) -> Flushing {
    match every {
        0 => Flushing::Never,
        every => Flushing::Each(every),
    }
}

fn session(
    alloc: Global,
    engine: &mut TestEngine,
    flushing: Flushing,
    row: Row,
    out: &mut String,
) -> Result<(), AllocError> {
    let Row {
        turns,
        fault,
        readings,
    } = row;
    let mut reader = TestReader::new(readings);
    let mut writer = TestWriter::new(alloc, fault);
    match end_of(alloc, engine, &mut reader, &mut writer, turns, flushing) {
        Some(end) => {
            tell_flushed_end(out, &end)?;
            tell_rest(alloc, engine, reader.left(), &writer.bytes, out)
        }
        None => out.push_str("a peer is there\n"),
    }
}

/// How a session ends; none, where a peer is there before.
fn end_of(
    alloc: Global,
    engine: &mut TestEngine,
    reader: &mut TestReader,
    writer: &mut TestWriter,
    turns: u64,
    flushing: Flushing,
) -> Option<Result<Result<SessionEnd, FlushError>, ConnectError>> {
    if engine.peers() != 0 {
        return None;
    }
    Some(run_session_with_flushes(alloc, engine, reader, writer, true, turns, flushing))
}

/// A peer that is not reached.
fn no_meeting(
    alloc: Global,
    engine: &mut TestEngine,
    flushing: Flushing,
    out: &mut String,
) -> Result<(), AllocError> {
    if engine.peers() != 0 {
        return out.push_str("a peer is there\n");
    }
    let reached: Option<(TestReader, TestWriter)> = None;
    let (end, flushed) = meet_peer(alloc, engine, reached, true, 1, flushing);
    tell_met(out, end, flushed)?;
    out.push_str("\n")
}

fn meeting(
    alloc: Global,
    engine: &mut TestEngine,
    flushing: Flushing,
    row: Row,
    out: &mut String,
) -> Result<(), AllocError> {
    let Row {
        turns,
        fault,
        readings,
    } = row;
    let mut reader = TestReader::new(readings);
    let mut writer = TestWriter::new(alloc, fault);
    match met(alloc, engine, &mut reader, &mut writer, turns, flushing) {
        Some((end, flushed)) => {
            tell_met(out, end, flushed)?;
            tell_rest(alloc, engine, reader.left(), &writer.bytes, out)
        }
        None => out.push_str("a peer is there\n"),
    }
}

/// What came of a peer that was reached, and what the last flush answered; none, where a peer is there before.
fn met(
    alloc: Global,
    engine: &mut TestEngine,
    reader: &mut TestReader,
    writer: &mut TestWriter,
    turns: u64,
    flushing: Flushing,
) -> Option<(PeerEnd, Result<(), FlushError>)> {
    if engine.peers() != 0 {
        return None;
    }
    // A tuple of two `&mut` that a name holds is not moved into the call.
    Some(meet_peer(
        alloc,
        engine,
        Some((&mut *reader, &mut *writer)),
        true,
        turns,
        flushing,
    ))
}

fn tell_met(
    out: &mut String,
    end: PeerEnd,
    flushed: Result<(), FlushError>,
) -> Result<(), AllocError> {
    match end {
        PeerEnd::Session(end) => tell_end(out, &Ok(end))?,
        end => out.push_str(end_text(end))?,
    }
    match flushed {
        Ok(()) => Ok(()),
        Err(error) => write!(out, ", flush refused {error}"),
    }
}

fn tell_flushed_end(
    out: &mut String,
    end: &Result<Result<SessionEnd, FlushError>, ConnectError>,
) -> Result<(), AllocError> {
    match end {
        Ok(Ok(end)) => tell_end(out, &Ok(*end)),
        Ok(Err(error)) => write!(out, "flush refused {error}"),
        Err(error) => write!(out, "refused {error}"),
    }
}
