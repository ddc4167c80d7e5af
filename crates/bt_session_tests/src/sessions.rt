//! Sessions, and the engine that they run on.

use crate::answers::tell_why;
use crate::asking::asking_row;
use crate::device::with_fault;
use crate::engine::{TestDisk, TestEngine, memory_disk, start, tell_reports, torrent_of};
use crate::flushes::{flushing_peers_row, flushing_row, meeting_row};
use crate::links::peers_row;
use crate::partner::{TestReader, TestWriter};
use crate::row::{Row, row_of};
use bt_machine::{ConnectError, Why};
use bt_meta::Torrent;
use bt_rows::{bytes_of, push_digest, push_hex, put};
use bt_session::{SessionEnd, run_session};
use std::alloc::{AllocError, Global};
use std::fmt::Write;

/// The most bytes that are printed one by one.
const MOST_SHOWN: usize = 256;

/// What the rows so far have made.
#[derive(Drop)]
pub struct Sessions {
    pub engine: Option<TestEngine>,
}

impl Sessions {
    pub fn new() -> Self {
        Sessions { engine: None }
    }

    /// Adds what a row of this name answers. What is no row says so.
    pub fn answer(
        &mut self,
        alloc: Global,
        name: &str,
        rest: &str,
        out: &mut String,
    ) -> Result<(), AllocError> {
        if name == "torrent" {
            put(&mut self.engine, None);
            return self.begin(alloc, rest, out);
        }
        match &mut self.engine {
            Some(engine) => engine_row(alloc, engine, name, rest, out),
            None => out.push_str("no engine\n"),
        }
    }

    /// Starts the engine of a torrent, on the devices that these words say.
    fn begin(&mut self, alloc: Global, words: &str, out: &mut String) -> Result<(), AllocError> {
        let (text, devices) = words.split_once(' ').unwrap_or((words, ""));
        match disks_of(alloc, devices)? {
            Some(disks) => self.begin_on(alloc, disks, text, out),
            None => out.push_str("no bytes\n"),
        }
    }

    fn begin_on(
        &mut self,
        alloc: Global,
        disks: Vec<TestDisk>,
        text: &str,
        out: &mut String,
    ) -> Result<(), AllocError> {
        match torrent_of(alloc, text, out)? {
            Some(torrent) => self.start(alloc, torrent, disks, out),
            None => Ok(()),
        }
    }

    fn start(
        &mut self,
        alloc: Global,
        torrent: Torrent,
        disks: Vec<TestDisk>,
        out: &mut String,
    ) -> Result<(), AllocError> {
        match start(alloc, torrent, disks) {
            Ok(engine) => {
                put(&mut self.engine, Some(engine));
                Ok(())
            }
            Err(cause) => writeln!(out, "refused {cause}"),
        }
    }
}

/// The devices of files, of which each word has the bytes, and after `!` the call that fails, where one does. None
/// where a word has no bytes.
fn disks_of(alloc: Global, words: &str) -> Result<Option<Vec<TestDisk>>, AllocError> {
    let mut disks = Vec::new(alloc);
    if push_disks(alloc, &mut disks, words)? {
        return Ok(Some(disks));
    }
    Ok(None)
}

fn push_disks(alloc: Global, disks: &mut Vec<TestDisk>, words: &str) -> Result<bool, AllocError> {
    for word in words.split_whitespace() {
        if !push_disk(alloc, disks, word)? {
            return Ok(false);
        }
    }
    Ok(true)
}

fn push_disk(alloc: Global, disks: &mut Vec<TestDisk>, word: &str) -> Result<bool, AllocError> {
    let (word, call) = word.split_once('!').unwrap_or((word, "0"));
    match bytes_of(alloc, word)? {
        Some(bytes) => {
            let call = call.parse().unwrap_or(0);
            disks.push(with_fault(memory_disk(alloc, bytes), call))?;
            Ok(true)
        }
        None => Ok(false),
    }
}

fn engine_row(
    alloc: Global,
    engine: &mut TestEngine,
    name: &str,
    rest: &str,
    out: &mut String,
) -> Result<(), AllocError> {
    match name {
        "adopt" => adopt_row(engine, rest, out),
        "fetch" => session_row(alloc, engine, true, rest, out),
        "serve" => session_row(alloc, engine, false, rest, out),
        "asking" => asking_row(alloc, engine, rest, out),
        "peers" => peers_row(alloc, engine, rest, out),
        "flushing" => flushing_row(alloc, engine, rest, out),
        "meeting" => meeting_row(alloc, engine, rest, out),
        "flushing_peers" => flushing_peers_row(alloc, engine, rest, out),
        _ => writeln!(out, "no line {name}"),
    }
}

/// Takes in what the device of a file has.
fn adopt_row(engine: &mut TestEngine, word: &str, out: &mut String) -> Result<(), AllocError> {
    match engine.adopt(word.parse().unwrap_or(u32::MAX)) {
        Ok(adopted) => writeln!(out, "adopted {} of {}", adopted.marked, adopted.next),
        Err(error) => writeln!(out, "refused {error}"),
    }
}

/// Runs a session, and tells of it.
fn session_row(
    alloc: Global,
    engine: &mut TestEngine,
    until_complete: bool,
    words: &str,
    out: &mut String,
) -> Result<(), AllocError> {
    match row_of(alloc, words)? {
        Some(row) => session(alloc, engine, until_complete, row, out),
        None => out.push_str("no session\n"),
    }
}

fn session(
    alloc: Global,
    engine: &mut TestEngine,
    until_complete: bool,
    row: Row,
    out: &mut String,
) -> Result<(), AllocError> {
    let Row {
        turns,
        fault,
        readings,
    } = row;
    let mut reader = TestReader::new(readings);
    let mut writer = TestWriter::new(alloc, fault);
    match end_of(
        alloc,
        engine,
        &mut reader,
        &mut writer,
        until_complete,
        turns,
    ) {
        Some(end) => tell_session(alloc, engine, &end, reader.left(), &writer.bytes, out),
        None => out.push_str("a peer is there\n"),
    }
}

/// How a session ends; none, where a peer is there before.
fn end_of(
    alloc: Global,
    engine: &mut TestEngine,
    reader: &mut TestReader,
    writer: &mut TestWriter,
    until_complete: bool,
    turns: u64,
) -> Option<Result<SessionEnd, ConnectError>> {
    if engine.peers() != 0 {
        return None;
    }
    Some(run_session(alloc, engine, reader, writer, until_complete, turns))
}

fn tell_session(
    alloc: Global,
    engine: &TestEngine,
    end: &Result<SessionEnd, ConnectError>,
    left: usize,
    written: &[u8],
    out: &mut String,
) -> Result<(), AllocError> {
    tell_end(out, end)?;
    tell_rest(alloc, engine, left, written, out)
}

/// Adds what is left of the reader, who is connected, what was written, and how far each file is.
pub fn tell_rest(
    alloc: Global,
    engine: &TestEngine,
    left: usize,
    written: &[u8],
    out: &mut String,
) -> Result<(), AllocError> {
    writeln!(out, ", {left} left, {} peers", engine.peers())?;
    tell_written(alloc, out, written)?;
    tell_reports(out, engine)
}

/// Adds how a session ended.
pub fn tell_end(
    out: &mut String,
    end: &Result<SessionEnd, ConnectError>,
) -> Result<(), AllocError> {
    match end {
        Ok(SessionEnd::Complete) => out.push_str("complete"),
        Ok(SessionEnd::Ended) => out.push_str("ended"),
        Ok(SessionEnd::Closed(why)) => tell_closed(out, why),
        Ok(SessionEnd::TurnsSpent) => out.push_str("turns spent"),
        Ok(SessionEnd::ReadFault) => out.push_str("read fault"),
        Ok(SessionEnd::WriteFault) => out.push_str("write fault"),
        Ok(SessionEnd::Memory) => out.push_str("out of memory"),
        Err(error) => write!(out, "refused {error}"),
    }
}

fn tell_closed(out: &mut String, why: &Why) -> Result<(), AllocError> {
    out.push_str("closed ")?;
    tell_why(out, why)
}

/// How many bytes, and which: in hexadecimal where they are few, else their SHA-256.
pub fn tell_written(alloc: Global, out: &mut String, bytes: &[u8]) -> Result<(), AllocError> {
    write!(out, "{} bytes ", bytes.len())?;
    if bytes.len() <= MOST_SHOWN {
        push_hex(alloc, out, bytes)?;
    } else {
        out.push_str("of ")?;
        push_digest(alloc, out, bytes)?;
    }
    out.push_str("\n")
}
